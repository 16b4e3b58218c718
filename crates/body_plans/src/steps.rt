//! The steps of a plan.
ghost use Rattle.std.specs.Prelude.{◌≡◌, ◌++◌, ◌∷◌, ◌-◌, [], map, length, replicate, unwrap_or, IfOk, OnOk, option_copied};
ghost use Rattle.name_tables.specs.Keys.{label_of};
ghost use Rattle.check_rules.specs.Directions.{ports_of};
ghost use Rattle.body_plans.specs.Channels.{inner, made_by, made_if, made_at};
ghost use Rattle.body_plans.specs.Plans.{binding_label, bound_to, binding_place, port_sources, part_step, in_row, instance_step as instance_by, steps_by, steps_if, steps_at, steps_along};
ghost use Rattle.body_plans.specs.Views.{channel_of};

use crate::before::ModulesBefore;
use crate::channel::ChannelKey;
use crate::channels::{inner_channel, server_key};
use crate::lookup::{element_at, found_at};
use crate::made::{add_made_by, add_names, before_last};
use crate::ordered::OrderedElement;
use crate::places::{PlaceTable, count_of};
use body_order::Elements;
use check_rules::keys::name_key;
use design_scopes::modules::ModuleNames;
use design_scopes::scope_names::ScopeNames;
use design_tree::{ApplicationId, Binding, ModulePort, Name, PortDirection, Statement};
use esi_base::{List, NoMemory};
use flat_design::Step;
use name_tables::{Key, NameTable};
use std::alloc::Global;

/// The steps of elements in their order, where these channels are given.
pub(crate) fn steps_of<'v, 'a>(
    alloc: Global,
    scope: &ScopeNames<'v, 'a>,
    before: &ModulesBefore<'_, 'a>,
    elements: &Elements<'a>,
    places: &PlaceTable<'a>,
    given: List<ChannelKey<'a>>,
    order: &[OrderedElement],
) -> Result<List<Step>, NoMemory>
    ensures { IfOk result (λ steps. steps ≡ steps_along scope.now before.now elements.now places.now (map channel_of given.entry) order.now) }
{
    let mut steps = List::new(alloc);
    let mut channels = given;
    for element in order {
        add_element(
            alloc,
            scope,
            before,
            elements,
            places,
            &mut steps,
            &mut channels,
            element,
        )?;
    }
    Ok(steps)
}

/// Adds the steps of an element, and the channels that it makes.
fn add_element<'v, 'a>(
    alloc: Global,
    scope: &ScopeNames<'v, 'a>,
    before: &ModulesBefore<'_, 'a>,
    elements: &Elements<'a>,
    places: &PlaceTable<'a>,
    steps: &mut List<Step>,
    channels: &mut List<ChannelKey<'a>>,
    element: &OrderedElement,
) -> Result<(), NoMemory>
    ensures steps { OnOk result (steps.new ≡ steps.old ++ steps_at scope.now before.now elements.now places.now (length (map channel_of channels.old)) element.now) }
    ensures channels { OnOk result (map channel_of channels.new ≡ map channel_of channels.old ++ made_at scope.now before.now elements.now element.now) }
{
    add_found(
        alloc,
        scope,
        before,
        places,
        steps,
        channels,
        element,
        element_at(elements, element.number),
    )
}

/// Adds the steps of a statement, and the channels that it makes, if there is one.
fn add_found<'v, 'a>(
    alloc: Global,
    scope: &ScopeNames<'v, 'a>,
    before: &ModulesBefore<'_, 'a>,
    places: &PlaceTable<'a>,
    steps: &mut List<Step>,
    channels: &mut List<ChannelKey<'a>>,
    element: &OrderedElement,
    found: Option<&'a Statement>,
) -> Result<(), NoMemory>
    ensures steps { OnOk result (steps.new ≡ steps.old ++ steps_if scope.now before.now places.now (length (map channel_of channels.old)) element.now (option_copied found.entry)) }
    ensures channels { OnOk result (map channel_of channels.new ≡ map channel_of channels.old ++ made_if scope.now before.now element.now (option_copied found.entry)) }
{
    match found {
        None => Ok(()),
        Some(statement) => {
            add_statement(
                alloc, scope, before, places, steps, channels, element, statement,
            )
        }
    }
}

fn add_statement<'v, 'a>(
    alloc: Global,
    scope: &ScopeNames<'v, 'a>,
    before: &ModulesBefore<'_, 'a>,
    places: &PlaceTable<'a>,
    steps: &mut List<Step>,
    channels: &mut List<ChannelKey<'a>>,
    element: &OrderedElement,
    statement: &'a Statement,
) -> Result<(), NoMemory>
    ensures steps { OnOk result (steps.new ≡ steps.old ++ steps_by scope.now before.now places.now (length (map channel_of channels.old)) element.now statement.now) }
    ensures channels { OnOk result (map channel_of channels.new ≡ map channel_of channels.old ++ made_by scope.now before.now element.now statement.now) }
{
    match statement {
        Statement::Request { .. } | Statement::Drive { .. } => Ok(()),
        Statement::Instance {
            id,
            module,
            bindings,
            ..
        } => {
            let step = instance_step(
                alloc,
                scope,
                before,
                places,
                id,
                module,
                bindings.as_slice(),
            )?;
            steps.add(step)?;
            add_made_by(scope, before, channels, element, statement)
        }
        Statement::Channels {
            names,
            operation,
            ..
        } => {
            let mut sources = List::new(alloc);
            places.add_taken(&mut sources, operation)?;
            add_row(alloc, steps, channels, element, names.len(), sources)?;
            add_names(channels, names.as_slice())
        }
    }
}

/// Adds parts in a row, of which the last one makes so many channels, and the channels between them.
#[tactic(auto, using(crate::proofs::Rows::row_step, crate::proofs::Rows::row_last))]
fn add_row<'a>(
    alloc: Global,
    steps: &mut List<Step>,
    channels: &mut List<ChannelKey<'a>>,
    row: &OrderedElement,
    branches: usize,
    sources: List<usize>,
) -> Result<(), NoMemory>
    ensures steps { OnOk result (steps.new ≡ steps.old ++ in_row row.now.part row.now.width (replicate branches row.now.width) (row.now.count - 1) (length (map channel_of channels.old)) sources) }
    ensures channels { OnOk result (map channel_of channels.new ≡ map channel_of channels.old ++ replicate (row.now.count - 1) inner) }
{
    let mut taken = sources;
    for turn in 0..before_last(row.count) {
        taken = add_part(alloc, steps, channels, row, taken)?;
    }
    let widths = widths_of(alloc, branches, row.width)?;
    steps.add(Step::Element {
        part: row.part,
        sources: taken,
        widths,
    })
}

/// Adds a part before the last one, and the channel that it makes. Hands out the place of that channel.
fn add_part<'a>(
    alloc: Global,
    steps: &mut List<Step>,
    channels: &mut List<ChannelKey<'a>>,
    row: &OrderedElement,
    sources: List<usize>,
) -> Result<List<usize>, NoMemory>
    ensures steps { OnOk result (steps.new ≡ steps.old ++ part_step row.now.part row.now.width sources ∷ []) }
    ensures channels { OnOk result (map channel_of channels.new ≡ map channel_of channels.old ++ inner ∷ []) }
    ensures place { IfOk result (λ places. places ≡ length (map channel_of channels.old) ∷ []) }
{
    let mut places = List::new(alloc);
    places.add(count_of(channels.as_slice()))?;
    let widths = widths_of(alloc, 1, row.width)?;
    steps.add(Step::Element {
        part: row.part,
        sources,
        widths,
    })?;
    channels.add(inner_channel())?;
    Ok(places)
}

/// So many channels of one width.
fn widths_of(alloc: Global, count: usize, width: u32) -> Result<List<u32>, NoMemory>
    ensures { IfOk result (λ widths. widths ≡ replicate count width) }
{
    let mut widths = List::new(alloc);
    for turn in 0..count {
        widths.add(width)?;
    }
    Ok(widths)
}

/// The step of an instance.
fn instance_step<'v, 'a>(
    alloc: Global,
    scope: &ScopeNames<'v, 'a>,
    before: &ModulesBefore<'_, 'a>,
    places: &PlaceTable<'a>,
    id: &'a ApplicationId,
    source: &'a Name,
    bindings: &'a [Binding],
) -> Result<Step, NoMemory>
    ensures { IfOk result (λ step. step ≡ instance_by scope.now before.now places.now id.now source.now bindings.now) }
{
    let mut sources = List::new(alloc);
    let bound = NameTable::of(alloc, binding_keys(alloc, bindings)?)?;
    add_bound(
        places,
        &mut sources,
        &bound,
        bindings,
        scope.find_module(source),
    )?;
    places.add_endpoints(
        &mut sources,
        &server_key(id),
        before.endpoints(source).to_server,
    )?;
    Ok(Step::Instance {
        body: before.number(source).unwrap_or(0),
        sources,
    })
}

fn binding_keys<'a>(alloc: Global, bindings: &'a [Binding]) -> Result<List<Key<'a>>, NoMemory>
    ensures { IfOk result (λ keys. map label_of keys ≡ map binding_label bindings.now) }
{
    let mut keys = List::new(alloc);
    for binding in bindings {
        keys.add(name_key(&binding.port))?;
    }
    Ok(keys)
}

fn add_bound<'a>(
    places: &PlaceTable<'a>,
    sources: &mut List<usize>,
    bound: &NameTable<'a>,
    bindings: &'a [Binding],
    source: Option<&ModuleNames<'a>>,
) -> Result<(), NoMemory>
    requires { bound.now ≡ map binding_label bindings.now }
    ensures { OnOk result (sources.new ≡ sources.old ++ port_sources places.now bindings.now (ports_of (option_copied source.entry))) }
{
    match source {
        None => Ok(()),
        Some(found) => add_ports(places, sources, bound, bindings, found.ports()),
    }
}

fn add_ports<'a>(
    places: &PlaceTable<'a>,
    sources: &mut List<usize>,
    bound: &NameTable<'a>,
    bindings: &'a [Binding],
    ports: &'a [ModulePort],
) -> Result<(), NoMemory>
    requires { bound.now ≡ map binding_label bindings.now }
    ensures { OnOk result (sources.new ≡ sources.old ++ port_sources places.now bindings.now ports.now) }
{
    for port in ports {
        add_port(places, sources, bound, bindings, port)?;
    }
    Ok(())
}

fn add_port<'a>(
    places: &PlaceTable<'a>,
    sources: &mut List<usize>,
    bound: &NameTable<'a>,
    bindings: &'a [Binding],
    port: &'a ModulePort,
) -> Result<(), NoMemory>
    requires { bound.now ≡ map binding_label bindings.now }
    ensures { OnOk result (sources.new ≡ sources.old ++ port_sources places.now bindings.now (port.now ∷ [])) }
{
    match port.direction {
        PortDirection::In => sources.add(place_bound(places, bound, bindings, port)),
        PortDirection::Out => Ok(()),
    }
}

/// The place of what a port is bound to; 0 where it is not bound.
fn place_bound<'a>(
    places: &PlaceTable<'a>,
    bound: &NameTable<'a>,
    bindings: &'a [Binding],
    port: &'a ModulePort,
) -> usize
    requires { bound.now ≡ map binding_label bindings.now }
    ensures { result ≡ binding_place places.now (bound_to bindings.now port.now) }
{
    match found_at(bindings, bound.find(&name_key(&port.name))) {
        None => 0,
        Some(binding) => places.source(&binding.source),
    }
}
