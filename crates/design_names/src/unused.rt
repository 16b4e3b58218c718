//! What is not used, driven or bound.
ghost use Rattle.std.specs.Prelude.{◌≡◌, ◌∷◌, [], ◌&&◌, not, map, flat_map, if◌then◌else◌, IfOk, option_copied};
ghost use Rattle.std.specs.List.{list_any};
ghost use Rattle.name_tables.specs.FirstPlaces.{least, least_from};
ghost use Rattle.name_tables.specs.Lists.{stands};
ghost use Rattle.name_tables.specs.Keys.{label_of, occurrence_of};
ghost use Rattle.name_tables.specs.Labels.{label_at};
ghost use Rattle.check_rules.specs.References.{named, part_label};
ghost use Rattle.check_rules.specs.DeclaredTwice.{port_named};
ghost use Rattle.check_rules.specs.Uses.{is_out as out_test};
ghost use Rattle.check_rules.specs.Directions.{ports_of};
ghost use Rattle.design_scopes.specs.Resolving.{scope_in};
ghost use Rattle.design_names.specs.UnusedPlaces.{missing_one, members_unused, outs_unused, ins_unbound, binding_label, unused_by, unbound_by, body_unused, used_labels};

use crate::used_twice::push_used;
use check_rules::keys::{name_key, name_mark, part_key};
use design_scopes::body::Body;
use design_scopes::bundles::BundleNames;
use design_scopes::declared::Declared;
use design_scopes::modules::ModuleNames;
use design_scopes::resolving::find_requested;
use design_tree::{ApplicationId, Binding, Member, ModulePort, Name, PortDirection, Statement};
use esi_base::{List, NoMemory};
use name_tables::{Key, Mark, NameTable, earlier};
use std::alloc::Global;

/// The least place of what is not used, driven or bound.
pub fn first_unused<'a>(
    alloc: Global,
    declared: &Declared<'a>,
    bodies: &[Body<'a>],
) -> Result<Option<usize>, NoMemory>
    ensures { IfOk result (λ first. first ≡ least (flat_map (body_unused declared.now) bodies.now)) }
{
    let mut place = None;
    for body in bodies {
        place = unused_in_body(alloc, place, declared, body)?;
    }
    Ok(place)
}

#[tactic(auto, using(statement_checks::specs::Walks::least_three))]
fn unused_in_body<'a>(
    alloc: Global,
    first: Option<usize>,
    declared: &Declared<'a>,
    body: &Body<'a>,
) -> Result<Option<usize>, NoMemory>
    ensures { IfOk result (λ place. place ≡ least_from first (body_unused declared.now body.now)) }
{
    let statements = body.statements.as_slice();
    let used = used_names(alloc, statements)?;
    let ports = unused_ports(first, &used, body.ports);
    let parts = unused_of_statements(ports, declared, body, &used, statements);
    unbound_in_statements(alloc, parts, declared, body, statements)
}

/// The names that the references of a body are written with.
fn used_names<'a>(alloc: Global, statements: &[&'a Statement]) -> Result<NameTable<'a>, NoMemory>
    ensures { IfOk result (λ table. table ≡ used_labels statements.now) }
{
    let mut marks = List::new(alloc);
    push_used(&mut marks, statements)?;
    let keys = keys_of(alloc, marks.as_slice())?;
    NameTable::of(alloc, keys)
}

fn keys_of<'a>(alloc: Global, marks: &[Mark<'a>]) -> Result<List<Key<'a>>, NoMemory>
    ensures { IfOk result (λ keys. map label_of keys ≡ map label_at (map occurrence_of marks.now)) }
{
    let mut keys = List::new(alloc);
    for mark in marks {
        keys.add(mark.key)?;
    }
    Ok(keys)
}

#[tactic(auto, using(statement_checks::specs::Walks::least_more, statement_checks::specs::Walks::least_item))]
fn unused_ports<'a>(
    first: Option<usize>,
    used: &NameTable<'a>,
    ports: &'a [ModulePort],
) -> Option<usize>
    ensures { result ≡ least_from first (flat_map (λ p. missing_one used.now (port_named p)) ports.now) }
{
    let mut place = first;
    for port in ports {
        place = unused_name(place, used, &port.name);
    }
    place
}

#[tactic(auto, using(statement_checks::specs::Walks::least_more, statement_checks::specs::Walks::least_item))]
fn unused_names<'a>(first: Option<usize>, used: &NameTable<'a>, names: &'a [Name]) -> Option<usize>
    ensures { result ≡ least_from first (flat_map (λ n. missing_one used.now (named n)) names.now) }
{
    let mut place = first;
    for name in names {
        place = unused_name(place, used, name);
    }
    place
}

/// With the place of a name, if it is not used.
fn unused_name<'a>(first: Option<usize>, used: &NameTable<'a>, name: &'a Name) -> Option<usize>
    ensures { result ≡ least_from first (missing_one used.now (named name.now)) }
{
    if used.contains(&name_key(name)) {
        first
    } else {
        earlier(first, name.at)
    }
}

#[tactic(auto, using(statement_checks::specs::Walks::least_more))]
fn unused_of_statements<'a>(
    first: Option<usize>,
    declared: &Declared<'a>,
    body: &Body<'a>,
    used: &NameTable<'a>,
    statements: &[&'a Statement],
) -> Option<usize>
    ensures { result ≡ least_from first (flat_map (λ s. unused_by (scope_in declared.now body.now) used.now s.now) statements.now) }
{
    let mut place = first;
    for statement in statements {
        place = unused_of_statement(place, declared, body, used, statement);
    }
    place
}

fn unused_of_statement<'a>(
    first: Option<usize>,
    declared: &Declared<'a>,
    body: &Body<'a>,
    used: &NameTable<'a>,
    statement: &'a Statement,
) -> Option<usize>
    ensures { result ≡ least_from first (unused_by (scope_in declared.now body.now) used.now statement.now) }
{
    match statement {
        Statement::Request {
            at,
            service,
            port,
            id,
        } => place_if(
            first,
            lacks_member(used, id, find_requested(declared, service, port)),
            *at,
        ),
        Statement::Instance {
            at,
            id,
            module: source,
            ..
        } => place_if(
            first,
            lacks_out(used, id, declared.modules.find(source, body.before)),
            *at,
        ),
        Statement::Channels { names, .. } => unused_names(first, used, names.as_slice()),
        Statement::Drive { .. } => first,
    }
}

/// With a place, if something is lacking there.
fn place_if(first: Option<usize>, lacks: bool, at: usize) -> Option<usize>
    ensures { result ≡ least_from first (if lacks then at ∷ [] else []) }
{
    if lacks { earlier(first, at) } else { first }
}

/// Whether a member of a request is not used.
fn lacks_member<'a>(
    used: &NameTable<'a>,
    id: &'a ApplicationId,
    bundle: Option<&BundleNames<'a>>,
) -> bool
    ensures { result ≡ members_unused used.now id.now (option_copied bundle.entry) }
{
    match bundle {
        None => false,
        Some(found) => lacks_one_member(used, id, found.members()),
    }
}

fn lacks_one_member<'a>(used: &NameTable<'a>, id: &'a ApplicationId, members: &'a [Member]) -> bool
    ensures { result ≡ list_any (λ m. not (stands (part_label id.now m.name) used.now)) members.now }
{
    for member in members {
        if !used.contains(&part_key(id, &member.name)) {
            return true;
        }
    }
    false
}

/// Whether an `out` port of an instance is not used.
fn lacks_out<'a>(
    used: &NameTable<'a>,
    id: &'a ApplicationId,
    source: Option<&ModuleNames<'a>>,
) -> bool
    ensures { result ≡ outs_unused used.now id.now (ports_of (option_copied source.entry)) }
{
    match source {
        None => false,
        Some(found) => lacks_one_out(used, id, found.ports()),
    }
}

fn lacks_one_out<'a>(used: &NameTable<'a>, id: &'a ApplicationId, ports: &'a [ModulePort]) -> bool
    ensures { result ≡ outs_unused used.now id.now ports.now }
{
    for port in ports {
        if is_out(port) && !used.contains(&part_key(id, &port.name)) {
            return true;
        }
    }
    false
}

fn is_out(port: &ModulePort) -> bool
    ensures { result ≡ out_test port.now }
{
    match port.direction {
        PortDirection::In => false,
        PortDirection::Out => true,
    }
}

#[tactic(auto, using(statement_checks::specs::Walks::least_more))]
fn unbound_in_statements<'a>(
    alloc: Global,
    first: Option<usize>,
    declared: &Declared<'a>,
    body: &Body<'a>,
    statements: &[&'a Statement],
) -> Result<Option<usize>, NoMemory>
    ensures { IfOk result (λ place. place ≡ least_from first (flat_map (λ s. unbound_by (scope_in declared.now body.now) s.now) statements.now)) }
{
    let mut place = first;
    for statement in statements {
        place = unbound_in_statement(alloc, place, declared, body, statement)?;
    }
    Ok(place)
}

fn unbound_in_statement<'a>(
    alloc: Global,
    first: Option<usize>,
    declared: &Declared<'a>,
    body: &Body<'a>,
    statement: &'a Statement,
) -> Result<Option<usize>, NoMemory>
    ensures { IfOk result (λ place. place ≡ least_from first (unbound_by (scope_in declared.now body.now) statement.now)) }
{
    match statement {
        Statement::Request { .. } | Statement::Channels { .. } | Statement::Drive { .. } => {
            Ok(first)
        }
        Statement::Instance {
            at,
            module: source,
            bindings,
            ..
        } => {
            let bound = bound_names(alloc, bindings.as_slice())?;
            Ok(place_if(
                first,
                lacks_in(&bound, declared.modules.find(source, body.before)),
                *at,
            ))
        }
    }
}

/// The ports that an instance binds.
fn bound_names<'a>(alloc: Global, bindings: &'a [Binding]) -> Result<NameTable<'a>, NoMemory>
    ensures { IfOk result (λ table. table ≡ map binding_label bindings.now) }
{
    let mut keys = List::new(alloc);
    for binding in bindings {
        keys.add(name_key(&binding.port))?;
    }
    NameTable::of(alloc, keys)
}

/// Whether an `in` port of an instance is not bound.
fn lacks_in<'a>(bound: &NameTable<'a>, source: Option<&ModuleNames<'a>>) -> bool
    ensures { result ≡ ins_unbound bound.now (ports_of (option_copied source.entry)) }
{
    match source {
        None => false,
        Some(found) => lacks_one_in(bound, found.ports()),
    }
}

fn lacks_one_in<'a>(bound: &NameTable<'a>, ports: &'a [ModulePort]) -> bool
    ensures { result ≡ ins_unbound bound.now ports.now }
{
    for port in ports {
        if !is_out(port) && !bound.contains(&name_key(&port.name)) {
            return true;
        }
    }
    false
}
