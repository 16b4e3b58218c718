//! References that go the wrong way.
ghost use Rattle.std.specs.Prelude.{◌≡◌, ◌∷◌, [], flat_map, if◌then◌else◌, IfOk, option_copied};
ghost use Rattle.name_tables.specs.FirstPlaces.{least, least_from};
ghost use Rattle.check_rules.specs.References.{reference_place, operation_sources as sources_by, resolve as resolution_of};
ghost use Rattle.check_rules.specs.Directions.{is_source as source_test, is_sink as sink_test, unless, bound_out, ports_of, statement_directions};
ghost use Rattle.design_names.specs.ReferencePlaces.{wrong_source, binding_wrong, binding_out, body_wrong};

use check_rules::{Referent, Resolution, operation_sources};
use design_scopes::body::Body;
use design_scopes::body_names::BodyNames;
use design_scopes::declared::Declared;
use design_scopes::modules::ModuleNames;
use design_scopes::scope_names::ScopeNames;
use design_tree::{Binding, ModulePort, Operation, PortDirection, Reference, Statement};
use esi_base::NoMemory;
use name_tables::earlier;
use std::alloc::Global;

/// The least place of a reference that goes the wrong way.
pub fn first_direction<'a>(
    alloc: Global,
    declared: &Declared<'a>,
    bodies: &[Body<'a>],
) -> Result<Option<usize>, NoMemory>
    ensures { IfOk result (λ first. first ≡ least (flat_map (body_wrong declared.now) bodies.now)) }
{
    let mut place = None;
    for body in bodies {
        place = wrong_in_body(alloc, place, declared, body)?;
    }
    Ok(place)
}

fn wrong_in_body<'a>(
    alloc: Global,
    first: Option<usize>,
    declared: &Declared<'a>,
    body: &Body<'a>,
) -> Result<Option<usize>, NoMemory>
    ensures { IfOk result (λ place. place ≡ least_from first (body_wrong declared.now body.now)) }
{
    let names = BodyNames::of(alloc, body)?;
    let scope = ScopeNames {
        declared,
        body,
        names: &names,
    };
    Ok(wrong_in_statements(first, &scope, body.statements.as_slice()))
}

#[tactic(auto, using(statement_checks::specs::Walks::least_more))]
fn wrong_in_statements<'a>(
    first: Option<usize>,
    scope: &ScopeNames<'_, 'a>,
    statements: &[&'a Statement],
) -> Option<usize>
    ensures { result ≡ least_from first (flat_map (λ s. statement_directions scope.now s.now) statements.now) }
{
    let mut place = first;
    for statement in statements {
        place = wrong_in_statement(place, scope, statement);
    }
    place
}

#[tactic(auto, using(crate::proofs::ReferenceSteps::instance_directions, crate::proofs::ReferenceSteps::channels_directions, crate::proofs::ReferenceSteps::drive_directions))]
fn wrong_in_statement<'a>(
    first: Option<usize>,
    scope: &ScopeNames<'_, 'a>,
    statement: &'a Statement,
) -> Option<usize>
    ensures { result ≡ least_from first (statement_directions scope.now statement.now) }
{
    match statement {
        Statement::Request { .. } => first,
        Statement::Instance {
            module: source,
            bindings,
            ..
        } => outs_in_bindings(
            wrong_in_bindings(first, scope, bindings.as_slice()),
            scope.find_module(source),
            bindings.as_slice(),
        ),
        Statement::Channels { operation, .. } => wrong_in_operation(first, scope, operation),
        Statement::Drive { sink, source, .. } => {
            wrong_sink_at(wrong_source_at(first, scope, source), scope, sink)
        }
    }
}

#[tactic(auto, using(statement_checks::specs::Walks::least_more, statement_checks::specs::Walks::least_item))]
fn wrong_in_bindings<'a>(
    first: Option<usize>,
    scope: &ScopeNames<'_, 'a>,
    bindings: &'a [Binding],
) -> Option<usize>
    ensures { result ≡ least_from first (flat_map (binding_wrong scope.now) bindings.now) }
{
    let mut place = first;
    for binding in bindings {
        place = wrong_source_at(place, scope, &binding.source);
    }
    place
}

#[tactic(auto, using(crate::proofs::ReferenceSteps::one_source, crate::proofs::ReferenceSteps::two_sources))]
fn wrong_in_operation<'a>(
    first: Option<usize>,
    scope: &ScopeNames<'_, 'a>,
    operation: &'a Operation,
) -> Option<usize>
    ensures { result ≡ least_from first (flat_map (wrong_source scope.now) (sources_by operation.now)) }
{
    let (source, other) = operation_sources(operation);
    let place = wrong_source_at(first, scope, source);
    match other {
        None => place,
        Some(right) => wrong_source_at(place, scope, right),
    }
}

fn wrong_source_at<'a>(
    first: Option<usize>,
    scope: &ScopeNames<'_, 'a>,
    reference: &'a Reference,
) -> Option<usize>
    ensures { result ≡ least_from first (wrong_source scope.now reference.now) }
{
    match scope.resolve(reference) {
        Resolution::To(referent) => place_unless(first, is_source(referent), place_of(reference)),
        Resolution::Undeclared { .. } | Resolution::Silent => first,
    }
}

fn wrong_sink_at<'a>(
    first: Option<usize>,
    scope: &ScopeNames<'_, 'a>,
    reference: &'a Reference,
) -> Option<usize>
    ensures { result ≡ least_from first (unless sink_test (reference_place reference.now) (resolution_of scope.now reference.now)) }
{
    match scope.resolve(reference) {
        Resolution::To(referent) => place_unless(first, is_sink(referent), place_of(reference)),
        Resolution::Undeclared { .. } | Resolution::Silent => first,
    }
}

/// With a place, unless it passes.
fn place_unless(first: Option<usize>, passes: bool, at: usize) -> Option<usize>
    ensures { result ≡ least_from first (if passes then [] else at ∷ []) }
{
    if passes { first } else { earlier(first, at) }
}

/// What a statement may take.
fn is_source(referent: Referent) -> bool
    ensures { result ≡ source_test referent }
{
    match referent {
        Referent::InPort | Referent::Channel | Referent::ToHardware | Referent::InstanceOut => true,
        Referent::OutPort | Referent::FromHardware | Referent::InstanceIn => false,
    }
}

/// What a statement may drive.
fn is_sink(referent: Referent) -> bool
    ensures { result ≡ sink_test referent }
{
    match referent {
        Referent::OutPort | Referent::FromHardware => true,
        Referent::InPort
        | Referent::Channel
        | Referent::ToHardware
        | Referent::InstanceIn
        | Referent::InstanceOut => false,
    }
}

/// The first octet of a reference.
fn place_of(reference: &Reference) -> usize
    ensures { result ≡ reference_place reference.now }
{
    match reference {
        Reference::Channel(name) => name.at,
        Reference::Member { id, .. } => id.name.at,
    }
}

/// What `out` ports of an instance's module are bound to.
#[tactic(auto, using(crate::proofs::ReferenceSteps::no_module_outs))]
fn outs_in_bindings<'a>(
    first: Option<usize>,
    source: Option<&ModuleNames<'a>>,
    bindings: &'a [Binding],
) -> Option<usize>
    ensures { result ≡ least_from first (flat_map (binding_out (ports_of (option_copied source.entry))) bindings.now) }
{
    match source {
        None => first,
        Some(found) => outs_of_module(first, found, bindings),
    }
}

#[tactic(auto, using(statement_checks::specs::Walks::least_more, statement_checks::specs::Walks::least_item))]
fn outs_of_module<'a>(
    first: Option<usize>,
    source: &ModuleNames<'a>,
    bindings: &'a [Binding],
) -> Option<usize>
    ensures { result ≡ least_from first (flat_map (binding_out source.now.ports) bindings.now) }
{
    let mut place = first;
    for binding in bindings {
        place = place_if_out(place, source.find(&binding.port), &binding.source);
    }
    place
}

fn place_if_out(
    first: Option<usize>,
    port: Option<&ModulePort>,
    reference: &Reference,
) -> Option<usize>
    ensures { result ≡ least_from first (bound_out (option_copied port.entry) reference.now) }
{
    match port {
        None => first,
        Some(found) => match found.direction {
            PortDirection::In => first,
            PortDirection::Out => earlier(first, place_of(reference)),
        },
    }
}
