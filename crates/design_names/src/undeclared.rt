//! Names that are looked up and not declared.
ghost use Rattle.std.specs.Prelude.{◌≡◌, ◌++◌, flat_map, IfOk};
ghost use Rattle.name_tables.specs.FirstPlaces.{least, least_from};
ghost use Rattle.check_rules.specs.Scopes.{find_bundle, find_service, find_service_port, find_port};
ghost use Rattle.check_rules.specs.References.{operation_sources as sources_by};
ghost use Rattle.check_rules.specs.Undeclared.{look_up, no_more, service_undeclared, names_undeclared as names_undeclared_by, references_undeclared as references_undeclared_by, statement_undeclared};
ghost use Rattle.design_names.specs.ReferencePlaces.{reference_undeclared, binding_undeclared, body_undeclared, port_bundle_undeclared, bound_port_undeclared, implement_undeclared};

use check_rules::{Resolution, operation_sources};
use design_scopes::body::Body;
use design_scopes::body_names::BodyNames;
use design_scopes::bundles::Bundles;
use design_scopes::declared::Declared;
use design_scopes::modules::ModuleNames;
use design_scopes::scope_names::ScopeNames;
use design_scopes::services::{ServiceNames, Services};
use design_tree::{Binding, Name, Operation, Reference, ServicePort, Statement};
use esi_base::NoMemory;
use name_tables::earlier;
use statement_checks::statement_variables;
use std::alloc::Global;

/// The least place of a name that is looked up and not declared.
#[tactic(auto, using(statement_checks::specs::Walks::least_parts))]
pub fn first_undeclared<'a>(
    alloc: Global,
    declared: &Declared<'a>,
    bodies: &[Body<'a>],
) -> Result<Option<usize>, NoMemory>
    ensures { IfOk result (λ first. first ≡ least (flat_map (service_undeclared declared.now.bundles) declared.now.services ++ flat_map (body_undeclared declared.now) bodies.now)) }
{
    let services = undeclared_in_services(&declared.bundles, declared.services.all());
    undeclared_in_bodies(alloc, services, declared, bodies)
}

#[tactic(auto, using(statement_checks::specs::Walks::least_more, statement_checks::specs::Walks::least_item))]
fn undeclared_in_services<'a>(bundles: &Bundles<'a>, services: &[ServiceNames<'a>]) -> Option<usize>
    ensures { result ≡ least (flat_map (service_undeclared bundles.now) services.now) }
{
    let mut place = None;
    for service in services {
        place = undeclared_in_service(place, bundles, service.ports());
    }
    place
}

#[tactic(auto, using(statement_checks::specs::Walks::least_more, statement_checks::specs::Walks::least_item))]
fn undeclared_in_service<'a>(
    first: Option<usize>,
    bundles: &Bundles<'a>,
    ports: &'a [ServicePort],
) -> Option<usize>
    ensures { result ≡ least_from first (flat_map (port_bundle_undeclared bundles.now) ports.now) }
{
    let mut place = first;
    for port in ports {
        place = undeclared_bundle(place, bundles, &port.bundle);
    }
    place
}

fn undeclared_bundle<'a>(
    first: Option<usize>,
    bundles: &Bundles<'a>,
    name: &'a Name,
) -> Option<usize>
    ensures { result ≡ least_from first (look_up name.now (find_bundle name.now bundles.now) no_more) }
{
    match bundles.find(name) {
        None => earlier(first, name.at),
        Some(_) => first,
    }
}

fn undeclared_service<'a>(
    first: Option<usize>,
    services: &Services<'a>,
    name: &'a Name,
) -> Option<usize>
    ensures { result ≡ least_from first (look_up name.now (find_service name.now services.now) no_more) }
{
    match services.find(name) {
        None => earlier(first, name.at),
        Some(_) => first,
    }
}

fn undeclared_in_bodies<'a>(
    alloc: Global,
    first: Option<usize>,
    declared: &Declared<'a>,
    bodies: &[Body<'a>],
) -> Result<Option<usize>, NoMemory>
    ensures { IfOk result (λ place. place ≡ least_from first (flat_map (body_undeclared declared.now) bodies.now)) }
{
    let mut place = first;
    for body in bodies {
        place = undeclared_in_body(alloc, place, declared, body)?;
    }
    Ok(place)
}

#[tactic(auto, using(statement_checks::specs::Walks::least_parts))]
fn undeclared_in_body<'a>(
    alloc: Global,
    first: Option<usize>,
    declared: &Declared<'a>,
    body: &Body<'a>,
) -> Result<Option<usize>, NoMemory>
    ensures { IfOk result (λ place. place ≡ least_from first (body_undeclared declared.now body.now)) }
{
    let names = BodyNames::of(alloc, body)?;
    let scope = ScopeNames {
        declared,
        body,
        names: &names,
    };
    let place = undeclared_in_statements(first, &scope, body.statements.as_slice());
    Ok(undeclared_implements(place, &declared.services, body.implements.as_slice()))
}

#[tactic(auto, using(statement_checks::specs::Walks::least_more))]
fn undeclared_implements<'a>(
    first: Option<usize>,
    services: &Services<'a>,
    implements: &[&'a Name],
) -> Option<usize>
    ensures { result ≡ least_from first (flat_map (λ n. implement_undeclared services.now n.now) implements.now) }
{
    let mut place = first;
    for name in implements {
        place = undeclared_service(place, services, name);
    }
    place
}

#[tactic(auto, using(statement_checks::specs::Walks::least_more))]
fn undeclared_in_statements<'a>(
    first: Option<usize>,
    scope: &ScopeNames<'_, 'a>,
    statements: &[&'a Statement],
) -> Option<usize>
    ensures { result ≡ least_from first (flat_map (λ s. statement_undeclared scope.now s.now) statements.now) }
{
    let mut place = first;
    for statement in statements {
        place = undeclared_in_statement(place, scope, statement);
    }
    place
}

#[tactic(auto, using(statement_checks::specs::Walks::least_left))]
fn undeclared_in_statement<'a>(
    first: Option<usize>,
    scope: &ScopeNames<'_, 'a>,
    statement: &'a Statement,
) -> Option<usize>
    ensures { result ≡ least_from first (statement_undeclared scope.now statement.now) }
{
    let names = undeclared_names(first, scope, statement);
    let variables = statement_variables(names, statement);
    undeclared_references(variables, scope, statement)
}

fn undeclared_names<'a>(
    first: Option<usize>,
    scope: &ScopeNames<'_, 'a>,
    statement: &'a Statement,
) -> Option<usize>
    ensures { result ≡ least_from first (names_undeclared_by scope.now statement.now) }
{
    match statement {
        Statement::Request { service, port, .. } => match scope.find_service(service) {
            None => earlier(first, service.at),
            Some(found) => undeclared_service_port(first, found, port),
        },
        Statement::Instance {
            module: source,
            bindings,
            ..
        } => match scope.find_module(source) {
            None => earlier(first, source.at),
            Some(found) => undeclared_bound_ports(first, found, bindings.as_slice()),
        },
        Statement::Channels { .. } | Statement::Drive { .. } => first,
    }
}

fn undeclared_service_port<'a>(
    first: Option<usize>,
    service: &ServiceNames<'a>,
    name: &'a Name,
) -> Option<usize>
    ensures { result ≡ least_from first (look_up name.now (find_service_port name.now service.now.ports) no_more) }
{
    match service.find(name) {
        None => earlier(first, name.at),
        Some(_) => first,
    }
}

#[tactic(auto, using(statement_checks::specs::Walks::least_more, statement_checks::specs::Walks::least_item))]
fn undeclared_bound_ports<'a>(
    first: Option<usize>,
    source: &ModuleNames<'a>,
    bindings: &'a [Binding],
) -> Option<usize>
    ensures { result ≡ least_from first (flat_map (bound_port_undeclared source.now) bindings.now) }
{
    let mut place = first;
    for binding in bindings {
        place = undeclared_port(place, source, &binding.port);
    }
    place
}

fn undeclared_port<'a>(
    first: Option<usize>,
    source: &ModuleNames<'a>,
    name: &'a Name,
) -> Option<usize>
    ensures { result ≡ least_from first (look_up name.now (find_port name.now source.now.ports) no_more) }
{
    match source.find(name) {
        None => earlier(first, name.at),
        Some(_) => first,
    }
}

#[tactic(auto, using(crate::proofs::ReferenceSteps::instance_references, crate::proofs::ReferenceSteps::drive_references))]
fn undeclared_references<'a>(
    first: Option<usize>,
    scope: &ScopeNames<'_, 'a>,
    statement: &'a Statement,
) -> Option<usize>
    ensures { result ≡ least_from first (references_undeclared_by scope.now statement.now) }
{
    match statement {
        Statement::Request { .. } => first,
        Statement::Instance { bindings, .. } => {
            undeclared_bindings(first, scope, bindings.as_slice())
        }
        Statement::Channels { operation, .. } => undeclared_sources(first, scope, operation),
        Statement::Drive { sink, source, .. } => {
            undeclared_reference(undeclared_reference(first, scope, sink), scope, source)
        }
    }
}

#[tactic(auto, using(statement_checks::specs::Walks::least_more, statement_checks::specs::Walks::least_item))]
fn undeclared_bindings<'a>(
    first: Option<usize>,
    scope: &ScopeNames<'_, 'a>,
    bindings: &'a [Binding],
) -> Option<usize>
    ensures { result ≡ least_from first (flat_map (binding_undeclared scope.now) bindings.now) }
{
    let mut place = first;
    for binding in bindings {
        place = undeclared_reference(place, scope, &binding.source);
    }
    place
}

#[tactic(auto, using(crate::proofs::ReferenceSteps::one_source, crate::proofs::ReferenceSteps::two_sources))]
fn undeclared_sources<'a>(
    first: Option<usize>,
    scope: &ScopeNames<'_, 'a>,
    operation: &'a Operation,
) -> Option<usize>
    ensures { result ≡ least_from first (flat_map (reference_undeclared scope.now) (sources_by operation.now)) }
{
    let (source, other) = operation_sources(operation);
    let place = undeclared_reference(first, scope, source);
    match other {
        None => place,
        Some(right) => undeclared_reference(place, scope, right),
    }
}

fn undeclared_reference<'a>(
    first: Option<usize>,
    scope: &ScopeNames<'_, 'a>,
    reference: &'a Reference,
) -> Option<usize>
    ensures { result ≡ least_from first (reference_undeclared scope.now reference.now) }
{
    match scope.resolve(reference) {
        Resolution::Undeclared { at } => earlier(first, at),
        Resolution::To(_) | Resolution::Silent => first,
    }
}
