//! What is used, driven or bound twice.
ghost use Rattle.std.specs.Prelude.{◌≡◌, ◌++◌, map, flat_map, IfOk, OnOk};
ghost use Rattle.name_tables.specs.FirstPlaces.{least, least_from};
ghost use Rattle.name_tables.specs.Lists.{repeats};
ghost use Rattle.name_tables.specs.Keys.{occurrence_of};
ghost use Rattle.check_rules.specs.References.{operation_sources, reference_named};
ghost use Rattle.check_rules.specs.Uses.{binding_named};
ghost use Rattle.design_names.specs.Places.{statement_used, binding_used, statement_bound, body_uses};

use check_rules::keys::{name_mark, reference_mark};
use design_scopes::body::Body;
use design_tree::{Binding, Operation, Statement};
use esi_base::{List, NoMemory};
use name_tables::{Mark, first_repeat};
use std::alloc::Global;

/// The least place at which something is used, driven or bound that was so before.
pub fn first_used_twice(alloc: Global, bodies: &[Body<'_>]) -> Result<Option<usize>, NoMemory>
    ensures { IfOk result (λ first. first ≡ least (flat_map body_uses bodies.now)) }
{
    let mut place = None;
    for body in bodies {
        place = use_in_body(alloc, place, body)?;
    }
    Ok(place)
}

#[tactic(auto, using(statement_checks::specs::Walks::least_parts))]
fn use_in_body(
    alloc: Global,
    first: Option<usize>,
    body: &Body<'_>,
) -> Result<Option<usize>, NoMemory>
    ensures { IfOk result (λ place. place ≡ least_from first (body_uses body.now)) }
{
    let mut marks = List::new(alloc);
    push_used(&mut marks, body.statements.as_slice())?;
    let place = first_repeat(alloc, first, marks.as_slice())?;
    bound_in_statements(alloc, place, body.statements.as_slice())
}

/// Adds the references of some statements.
pub fn push_used<'a>(
    marks: &mut List<Mark<'a>>,
    statements: &[&'a Statement],
) -> Result<(), NoMemory>
    ensures { OnOk result (map occurrence_of marks.new ≡ map occurrence_of marks.old ++ flat_map (λ s. statement_used s.now) statements.now) }
{
    for statement in statements {
        push_used_by(marks, statement)?;
    }
    Ok(())
}

/// Adds the references of a statement.
fn push_used_by<'a>(marks: &mut List<Mark<'a>>, statement: &'a Statement) -> Result<(), NoMemory>
    ensures { OnOk result (map occurrence_of marks.new ≡ map occurrence_of marks.old ++ statement_used statement.now) }
{
    match statement {
        Statement::Request { .. } => Ok(()),
        Statement::Instance { bindings, .. } => push_bound_to(marks, bindings.as_slice()),
        Statement::Channels { operation, .. } => push_taken(marks, operation),
        Statement::Drive { sink, source, .. } => {
            marks.add(reference_mark(sink))?;
            marks.add(reference_mark(source))
        }
    }
}

fn push_bound_to<'a>(marks: &mut List<Mark<'a>>, bindings: &'a [Binding]) -> Result<(), NoMemory>
    ensures { OnOk result (map occurrence_of marks.new ≡ map occurrence_of marks.old ++ map binding_used bindings.now) }
{
    for binding in bindings {
        marks.add(reference_mark(&binding.source))?;
    }
    Ok(())
}

fn push_taken<'a>(marks: &mut List<Mark<'a>>, operation: &'a Operation) -> Result<(), NoMemory>
    ensures { OnOk result (map occurrence_of marks.new ≡ map occurrence_of marks.old ++ map reference_named (operation_sources operation.now)) }
{
    match operation {
        Operation::Stage(source)
        | Operation::Fork(source)
        | Operation::AsFifo(source)
        | Operation::AsVr(source) => marks.add(reference_mark(source)),
        Operation::Buffer { source, .. }
        | Operation::Fifo { source, .. }
        | Operation::Map { source, .. }
        | Operation::Scan { source, .. } => marks.add(reference_mark(source)),
        Operation::Join { left, right } => {
            marks.add(reference_mark(left))?;
            marks.add(reference_mark(right))
        }
    }
}

/// The ports that an instance binds.
#[tactic(auto, using(statement_checks::specs::Walks::least_more))]
fn bound_in_statements(
    alloc: Global,
    first: Option<usize>,
    statements: &[&Statement],
) -> Result<Option<usize>, NoMemory>
    ensures { IfOk result (λ place. place ≡ least_from first (flat_map (λ s. statement_bound s.now) statements.now)) }
{
    let mut place = first;
    for statement in statements {
        place = bound_in_statement(alloc, place, statement)?;
    }
    Ok(place)
}

fn bound_in_statement(
    alloc: Global,
    first: Option<usize>,
    statement: &Statement,
) -> Result<Option<usize>, NoMemory>
    ensures { IfOk result (λ place. place ≡ least_from first (statement_bound statement.now)) }
{
    match statement {
        Statement::Request { .. } | Statement::Channels { .. } | Statement::Drive { .. } => {
            Ok(first)
        }
        Statement::Instance { bindings, .. } => {
            repeat_of_bindings(alloc, first, bindings.as_slice())
        }
    }
}

fn repeat_of_bindings(
    alloc: Global,
    first: Option<usize>,
    bindings: &[Binding],
) -> Result<Option<usize>, NoMemory>
    ensures { IfOk result (λ place. place ≡ least_from first (repeats (map binding_named bindings.now))) }
{
    let mut marks = List::new(alloc);
    for binding in bindings {
        marks.add(name_mark(&binding.port))?;
    }
    first_repeat(alloc, first, marks.as_slice())
}
