//! Names that are declared twice.
ghost use Rattle.std.specs.Prelude.{◌≡◌, ◌++◌, map, flat_map, IfOk, OnOk};
ghost use Rattle.name_tables.specs.FirstPlaces.{least, least_from};
ghost use Rattle.name_tables.specs.Lists.{repeats};
ghost use Rattle.name_tables.specs.Keys.{occurrence_of};
ghost use Rattle.check_rules.specs.References.{named, channels_of};
ghost use Rattle.check_rules.specs.DeclaredTwice.{declaration_named, member_named, service_port_named, port_named, ids_of, operation_spaces};
ghost use Rattle.design_names.specs.Places.{repeats_in, declaration_repeats, statement_repeats, body_repeats, own_named};

use check_rules::keys::{declaration_mark, id_mark, name_mark};
use design_scopes::body::Body;
use design_tree::{Declaration, Member, ModulePort, Name, Operation, ServicePort, Statement};
use esi_base::{List, NoMemory};
use name_tables::{Mark, first_repeat};
use std::alloc::Global;

/// The least place at which a name is declared that was declared before in its space.
#[tactic(auto, using(statement_checks::specs::Walks::least_parts))]
pub fn first_declared_twice(
    alloc: Global,
    declarations: &[Declaration],
    bodies: &[Body<'_>],
) -> Result<Option<usize>, NoMemory>
    ensures { IfOk result (λ first. first ≡ least (repeats (map declaration_named declarations.now) ++ (flat_map declaration_repeats declarations.now ++ flat_map body_repeats bodies.now))) }
{
    let first = repeat_of_declarations(alloc, declarations)?;
    let place = repeat_in_declarations(alloc, first, declarations)?;
    repeat_in_bodies(alloc, place, bodies)
}

/// Bundles, services and modules are one space.
fn repeat_of_declarations(
    alloc: Global,
    declarations: &[Declaration],
) -> Result<Option<usize>, NoMemory>
    ensures { IfOk result (λ place. place ≡ least (repeats (map declaration_named declarations.now))) }
{
    let mut marks = List::new(alloc);
    for declaration in declarations {
        marks.add(declaration_mark(declaration))?;
    }
    first_repeat(alloc, None, marks.as_slice())
}

/// The members of each bundle and the ports of each service are a space.
#[tactic(auto, using(statement_checks::specs::Walks::least_more, statement_checks::specs::Walks::least_item))]
fn repeat_in_declarations(
    alloc: Global,
    first: Option<usize>,
    declarations: &[Declaration],
) -> Result<Option<usize>, NoMemory>
    ensures { IfOk result (λ place. place ≡ least_from first (flat_map declaration_repeats declarations.now)) }
{
    let mut place = first;
    for declaration in declarations {
        place = repeat_in_declaration(alloc, place, declaration)?;
    }
    Ok(place)
}

fn repeat_in_declaration(
    alloc: Global,
    first: Option<usize>,
    declaration: &Declaration,
) -> Result<Option<usize>, NoMemory>
    ensures { IfOk result (λ place. place ≡ least_from first (declaration_repeats declaration.now)) }
{
    match declaration {
        Declaration::Bundle(bundle) => repeat_of_members(alloc, first, bundle.members.as_slice()),
        Declaration::Service(service) => {
            repeat_of_service_ports(alloc, first, service.ports.as_slice())
        }
        Declaration::Module(_) => Ok(first),
    }
}

fn repeat_of_members(
    alloc: Global,
    first: Option<usize>,
    members: &[Member],
) -> Result<Option<usize>, NoMemory>
    ensures { IfOk result (λ place. place ≡ least_from first (repeats (map member_named members.now))) }
{
    let mut marks = List::new(alloc);
    for member in members {
        marks.add(name_mark(&member.name))?;
    }
    first_repeat(alloc, first, marks.as_slice())
}

fn repeat_of_service_ports(
    alloc: Global,
    first: Option<usize>,
    ports: &[ServicePort],
) -> Result<Option<usize>, NoMemory>
    ensures { IfOk result (λ place. place ≡ least_from first (repeats (map service_port_named ports.now))) }
{
    let mut marks = List::new(alloc);
    for port in ports {
        marks.add(name_mark(&port.name))?;
    }
    first_repeat(alloc, first, marks.as_slice())
}

/// The names of each body are spaces of their own.
fn repeat_in_bodies(
    alloc: Global,
    first: Option<usize>,
    bodies: &[Body<'_>],
) -> Result<Option<usize>, NoMemory>
    ensures { IfOk result (λ place. place ≡ least_from first (flat_map body_repeats bodies.now)) }
{
    let mut place = first;
    for body in bodies {
        place = repeat_in_body(alloc, place, body)?;
    }
    Ok(place)
}

#[tactic(auto, using(statement_checks::specs::Walks::least_parts))]
fn repeat_in_body(
    alloc: Global,
    first: Option<usize>,
    body: &Body<'_>,
) -> Result<Option<usize>, NoMemory>
    ensures { IfOk result (λ place. place ≡ least_from first (body_repeats body.now)) }
{
    let own = repeat_of_own_names(alloc, first, body)?;
    let ids = repeat_of_ids(alloc, own, body.statements.as_slice())?;
    let implements = repeat_of_implements(alloc, ids, body.implements.as_slice())?;
    repeat_in_statements(alloc, implements, body.statements.as_slice())
}

/// The ports of a module and the channels of its body are one space.
fn repeat_of_own_names(
    alloc: Global,
    first: Option<usize>,
    body: &Body<'_>,
) -> Result<Option<usize>, NoMemory>
    ensures { IfOk result (λ place. place ≡ least_from first (repeats (own_named body.now))) }
{
    let mut marks = List::new(alloc);
    push_ports(&mut marks, body.ports)?;
    push_channels(&mut marks, body.statements.as_slice())?;
    first_repeat(alloc, first, marks.as_slice())
}

fn push_ports<'a>(marks: &mut List<Mark<'a>>, ports: &'a [ModulePort]) -> Result<(), NoMemory>
    ensures { OnOk result (map occurrence_of marks.new ≡ map occurrence_of marks.old ++ map port_named ports.now) }
{
    for port in ports {
        marks.add(name_mark(&port.name))?;
    }
    Ok(())
}

fn push_channels<'a>(
    marks: &mut List<Mark<'a>>,
    statements: &[&'a Statement],
) -> Result<(), NoMemory>
    ensures { OnOk result (map occurrence_of marks.new ≡ map occurrence_of marks.old ++ flat_map (λ s. map named (channels_of s.now)) statements.now) }
{
    for statement in statements {
        push_channels_of(marks, statement)?;
    }
    Ok(())
}

fn push_channels_of<'a>(
    marks: &mut List<Mark<'a>>,
    statement: &'a Statement,
) -> Result<(), NoMemory>
    ensures { OnOk result (map occurrence_of marks.new ≡ map occurrence_of marks.old ++ map named (channels_of statement.now)) }
{
    match statement {
        Statement::Request { .. } | Statement::Instance { .. } | Statement::Drive { .. } => Ok(()),
        Statement::Channels { names, .. } => push_names(marks, names.as_slice()),
    }
}

fn push_names<'a>(marks: &mut List<Mark<'a>>, names: &'a [Name]) -> Result<(), NoMemory>
    ensures { OnOk result (map occurrence_of marks.new ≡ map occurrence_of marks.old ++ map named names.now) }
{
    for name in names {
        marks.add(name_mark(name))?;
    }
    Ok(())
}

/// The application ids of a body's requests and instances are one space.
fn repeat_of_ids(
    alloc: Global,
    first: Option<usize>,
    statements: &[&Statement],
) -> Result<Option<usize>, NoMemory>
    ensures { IfOk result (λ place. place ≡ least_from first (repeats (flat_map (λ s. ids_of s.now) statements.now))) }
{
    let mut marks = List::new(alloc);
    for statement in statements {
        push_id(&mut marks, statement)?;
    }
    first_repeat(alloc, first, marks.as_slice())
}

fn push_id<'a>(marks: &mut List<Mark<'a>>, statement: &'a Statement) -> Result<(), NoMemory>
    ensures { OnOk result (map occurrence_of marks.new ≡ map occurrence_of marks.old ++ ids_of statement.now) }
{
    match statement {
        Statement::Request { id, .. } | Statement::Instance { id, .. } => marks.add(id_mark(id)),
        Statement::Channels { .. } | Statement::Drive { .. } => Ok(()),
    }
}

/// A top implements each service once.
fn repeat_of_implements(
    alloc: Global,
    first: Option<usize>,
    implements: &[&Name],
) -> Result<Option<usize>, NoMemory>
    ensures { IfOk result (λ place. place ≡ least_from first (repeats (map (λ n. named n.now) implements.now))) }
{
    let mut marks = List::new(alloc);
    for name in implements {
        marks.add(name_mark(name))?;
    }
    first_repeat(alloc, first, marks.as_slice())
}

/// The two variables of each scan are a space.
#[tactic(auto, using(statement_checks::specs::Walks::least_more))]
fn repeat_in_statements(
    alloc: Global,
    first: Option<usize>,
    statements: &[&Statement],
) -> Result<Option<usize>, NoMemory>
    ensures { IfOk result (λ place. place ≡ least_from first (flat_map (λ s. statement_repeats s.now) statements.now)) }
{
    let mut place = first;
    for statement in statements {
        place = repeat_in_statement(alloc, place, statement)?;
    }
    Ok(place)
}

fn repeat_in_statement(
    alloc: Global,
    first: Option<usize>,
    statement: &Statement,
) -> Result<Option<usize>, NoMemory>
    ensures { IfOk result (λ place. place ≡ least_from first (statement_repeats statement.now)) }
{
    match statement {
        Statement::Request { .. } | Statement::Instance { .. } | Statement::Drive { .. } => {
            Ok(first)
        }
        Statement::Channels { operation, .. } => repeat_in_operation(alloc, first, operation),
    }
}

fn repeat_in_operation(
    alloc: Global,
    first: Option<usize>,
    operation: &Operation,
) -> Result<Option<usize>, NoMemory>
    ensures { IfOk result (λ place. place ≡ least_from first (repeats_in (operation_spaces operation.now))) }
{
    match operation {
        Operation::Scan {
            state,
            variable,
            ..
        } => first_repeat(alloc, first, &[name_mark(state), name_mark(variable)]),
        Operation::Stage(_)
        | Operation::Fork(_)
        | Operation::AsFifo(_)
        | Operation::AsVr(_)
        | Operation::Buffer { .. }
        | Operation::Fifo { .. }
        | Operation::Join { .. }
        | Operation::Map { .. } => Ok(first),
    }
}
