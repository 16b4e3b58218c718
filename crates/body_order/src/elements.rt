//! The elements of a body, and which of them makes what is named.
ghost use Rattle.std.specs.Prelude.{◌≡◌, ◌++◌, ◌∷◌, [], IfOk, OnOk, map, length, replicate, option_to_list};
ghost use Rattle.name_tables.specs.Keys.{label_of};
ghost use Rattle.name_tables.specs.Lists.{index_in};
ghost use Rattle.check_rules.specs.Dependencies.{elements_of};
ghost use Rattle.check_rules.specs.References.{binding_source, channels_of, operation_sources, sources_of};
ghost use Rattle.body_order.specs.Makers.{referred, maker, needs_of_sources, first_needs, name_label, channel_labels, channel_makers, instance_labels, instance_labels_of, instance_makers, maker_at};

use check_rules::keys::{id_key, name_key};
use check_rules::operation_sources;
use design_tree::{Binding, Name, Operation, Reference, Statement};
use esi_base::{List, NoMemory};
use name_tables::{Key, NameTable};
use std::alloc::Global;
use std::marker::Model;

/// The elements of a body, in the text's order: the statements that make channels, and the instances.
/// Contracts see the list of these statements.
#[derive(Drop)]
pub struct Elements<'a> {
    statements: List<&'a Statement>,
    channels: Makers<'a>,
    instances: Makers<'a>,
}

impl<'a> Model for Elements<'a> {
    ghost use Rattle.std.specs.Prelude.{List};
    ghost use Rattle.design_tree.specs.declared.statements.Statement.{Statement};
    ghost use Rattle.body_order.specs.Makers.{referred, AreMade};
    ghost use Rattle.channel_types.specs.contracts.esi_type.EsiType as ty;
    ghost use Rattle.design_tree.specs.contracts.expression.Expression as expression;
    ghost use Rattle.std.specs.Coded.{codes};

    ghost Value = { List Statement };

    ghost coded = { Prim.hlevel (codes, ty.the_row.coded, expression.the_row.coded) };

    ghost view = { λ e. referred e.statements };

    ghost invariant = { λ e. AreMade (referred e.statements) e.channels.names e.channels.makers.items e.instances.names e.instances.makers.items };
}

impl<'a> Elements<'a> {
    /// The elements among the statements of a body.
    pub fn of(alloc: Global, statements: &[&'a Statement]) -> Result<Elements<'a>, NoMemory>
        ensures { IfOk result (λ elements. elements ≡ elements_of (referred statements.now)) }
    {
        let elements = elements_among(alloc, statements)?;
        let channels = made_channels(alloc, elements.as_slice())?;
        let instances = made_instances(alloc, elements.as_slice())?;
        Ok(Elements {
            statements: elements,
            channels,
            instances,
        })
    }

    /// The statements, in the text's order.
    pub fn statements(&self) -> &[&'a Statement]
        ensures { referred result.now ≡ self.now }
    {
        self.statements.as_slice()
    }

    /// The first element that makes what the reference is to, by its number among the elements.
    #[tactic(auto, using(crate::proofs::MakerLaws::channel_found, crate::proofs::MakerLaws::instance_found))]
    pub fn maker(&self, reference: &'a Reference) -> Option<usize>
        ensures { result ≡ maker self.now reference.now }
    {
        match reference {
            Reference::Channel(name) => self.channels.find(&name_key(name)),
            Reference::Member { id, name: _ } => self.instances.find(&id_key(id)),
        }
    }

    /// What each element needs: the elements that make its sources, by their numbers.
    pub fn needs(&self, alloc: Global) -> Result<List<List<usize>>, NoMemory>
        ensures { IfOk result (λ needs. needs ≡ first_needs self.now) }
    {
        let mut needs = List::new(alloc);
        self.add_all_needs(alloc, &mut needs, self.statements.as_slice())?;
        Ok(needs)
    }

    fn add_all_needs(
        &self,
        alloc: Global,
        needs: &mut List<List<usize>>,
        statements: &[&'a Statement],
    ) -> Result<(), NoMemory>
        ensures { OnOk result (needs.new ≡ needs.old ++ map (λ s. needs_of_sources self.now (sources_of s)) (referred statements.now)) }
    {
        for statement in statements {
            needs.add(self.needs_of(alloc, statement)?)?;
        }
        Ok(())
    }

    fn needs_of(&self, alloc: Global, statement: &'a Statement) -> Result<List<usize>, NoMemory>
        ensures { IfOk result (λ needs. needs ≡ needs_of_sources self.now (sources_of statement.now)) }
    {
        let mut needs = List::new(alloc);
        self.add_needs(&mut needs, statement)?;
        Ok(needs)
    }

    fn add_needs(&self, needs: &mut List<usize>, statement: &'a Statement) -> Result<(), NoMemory>
        ensures { OnOk result (needs.new ≡ needs.old ++ needs_of_sources self.now (sources_of statement.now)) }
    {
        match statement {
            Statement::Request { .. } => Ok(()),
            Statement::Instance { bindings, .. } => self.add_bound(needs, bindings.as_slice()),
            Statement::Channels { operation, .. } => self.add_taken(needs, operation),
            Statement::Drive { source, .. } => self.add_maker(needs, source),
        }
    }

    fn add_bound(&self, needs: &mut List<usize>, bindings: &'a [Binding]) -> Result<(), NoMemory>
        ensures { OnOk result (needs.new ≡ needs.old ++ needs_of_sources self.now (map binding_source bindings.now)) }
    {
        for binding in bindings {
            self.add_maker(needs, &binding.source)?;
        }
        Ok(())
    }

    fn add_taken(&self, needs: &mut List<usize>, operation: &'a Operation) -> Result<(), NoMemory>
        ensures { OnOk result (needs.new ≡ needs.old ++ needs_of_sources self.now (operation_sources operation.now)) }
    {
        let (first, second) = operation_sources(operation);
        self.add_maker(needs, first)?;
        match second {
            None => Ok(()),
            Some(source) => self.add_maker(needs, source),
        }
    }

    fn add_maker(&self, needs: &mut List<usize>, source: &'a Reference) -> Result<(), NoMemory>
        ensures { OnOk result (needs.new ≡ needs.old ++ option_to_list (maker self.now source.now)) }
    {
        match self.maker(source) {
            None => Ok(()),
            Some(element) => needs.add(element),
        }
    }
}

/// The elements among statements.
fn elements_among<'a>(
    alloc: Global,
    statements: &[&'a Statement],
) -> Result<List<&'a Statement>, NoMemory>
    ensures { IfOk result (λ elements. referred elements ≡ elements_of (referred statements.now)) }
{
    let mut elements = List::new(alloc);
    for statement in statements {
        add_if_element(&mut elements, statement)?;
    }
    Ok(elements)
}

/// Adds the statement, if it is an element.
fn add_if_element<'a>(
    elements: &mut List<&'a Statement>,
    statement: &'a Statement,
) -> Result<(), NoMemory>
    ensures { OnOk result (referred elements.new ≡ referred elements.old ++ elements_of (statement.now ∷ [])) }
{
    match statement {
        Statement::Request { .. } | Statement::Drive { .. } => Ok(()),
        Statement::Instance { .. } | Statement::Channels { .. } => elements.add(statement),
    }
}

/// Names, each with the number of the element that makes what it names.
#[derive(Drop)]
struct Makers<'a> {
    names: NameTable<'a>,
    makers: Vec<usize>,
}

impl<'a> Makers<'a> {
    fn find(&self, name: &Key<'a>) -> Option<usize>
        ensures { result ≡ maker_at self.now.makers.items (index_in (label_of name.now) self.now.names) }
    {
        match self.names.find(name) {
            None => None,
            Some(index) => Some(self.makers.get(index).copied().unwrap_or(0)),
        }
    }
}

/// The names of the channels that elements make.
fn made_channels<'a>(alloc: Global, elements: &[&'a Statement]) -> Result<Makers<'a>, NoMemory>
    ensures names { IfOk result (λ made. made.names ≡ channel_labels (referred elements.now)) }
    ensures makers { IfOk result (λ made. made.makers.items ≡ channel_makers 0 (referred elements.now)) }
{
    let mut names = List::new(alloc);
    let mut makers = Vec::new(alloc);
    for (number, element) in elements.iter().enumerate() {
        add_channels(&mut names, &mut makers, element, number)?;
    }
    let names = NameTable::of(alloc, names)?;
    Ok(Makers { names, makers })
}

/// Adds the names of the channels that an element makes.
fn add_channels<'a>(
    names: &mut List<Key<'a>>,
    makers: &mut Vec<usize>,
    element: &'a Statement,
    number: usize,
) -> Result<(), NoMemory>
    ensures names { OnOk result (map label_of names.new ≡ map label_of names.old ++ map name_label (channels_of element.now)) }
    ensures makers { OnOk result (makers.new.items ≡ makers.old.items ++ replicate (length (channels_of element.now)) number) }
{
    match element {
        Statement::Channels {
            names: channels,
            ..
        } => { add_names(names, makers, channels.as_slice(), number) }
        Statement::Request { .. } | Statement::Instance { .. } | Statement::Drive { .. } => Ok(()),
    }
}

/// Adds names, all made by one element.
fn add_names<'a>(
    names: &mut List<Key<'a>>,
    makers: &mut Vec<usize>,
    channels: &'a [Name],
    number: usize,
) -> Result<(), NoMemory>
    ensures names { OnOk result (map label_of names.new ≡ map label_of names.old ++ map name_label channels.now) }
    ensures makers { OnOk result (makers.new.items ≡ makers.old.items ++ replicate (length channels.now) number) }
{
    for channel in channels {
        names.add(name_key(channel))?;
        makers.push(number)?;
    }
    Ok(())
}

/// The application ids of the instances.
fn made_instances<'a>(alloc: Global, elements: &[&'a Statement]) -> Result<Makers<'a>, NoMemory>
    ensures names { IfOk result (λ made. made.names ≡ instance_labels (referred elements.now)) }
    ensures makers { IfOk result (λ made. made.makers.items ≡ instance_makers 0 (referred elements.now)) }
{
    let mut names = List::new(alloc);
    let mut makers = Vec::new(alloc);
    for (number, element) in elements.iter().enumerate() {
        add_instance(&mut names, &mut makers, element, number)?;
    }
    let names = NameTable::of(alloc, names)?;
    Ok(Makers { names, makers })
}

/// Adds the application id of an instance.
fn add_instance<'a>(
    names: &mut List<Key<'a>>,
    makers: &mut Vec<usize>,
    element: &'a Statement,
    number: usize,
) -> Result<(), NoMemory>
    ensures names { OnOk result (map label_of names.new ≡ map label_of names.old ++ instance_labels_of element.now) }
    ensures makers { OnOk result (makers.new.items ≡ makers.old.items ++ replicate (length (instance_labels_of element.now)) number) }
{
    match element {
        Statement::Instance { id, .. } => {
            names.add(id_key(id))?;
            makers.push(number)?;
            Ok(())
        }
        Statement::Request { .. } | Statement::Channels { .. } | Statement::Drive { .. } => Ok(()),
    }
}
