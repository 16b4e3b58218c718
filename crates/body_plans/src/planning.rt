//! The plan of a body.
ghost use Rattle.std.specs.Prelude.{◌≡◌, ◌++◌, length, map, IfOk};
ghost use Rattle.body_plans.specs.Channels.{given as given_by, server_endpoints as servers_by, channels as channels_by, places_of};
ghost use Rattle.body_plans.specs.Plans.{drives_of, port_places, plan_over as plan_over_by, plan_of};
ghost use Rattle.body_plans.specs.Views.{channel_of};

use crate::before::ModulesBefore;
use crate::body_plan::BodyPlan;
use crate::channel::ChannelKey;
use crate::channels::{given_channels, server_endpoints};
use crate::endpoints::Endpoints;
use crate::made::add_all_made;
use crate::ordered::OrderedElement;
use crate::outs::{DriveTable, client_endpoints, out_ports};
use crate::places::{PlaceTable, count_of};
use crate::steps::steps_of;
use body_order::Elements;
use design_scopes::scope_names::ScopeNames;
use esi_base::{List, NoMemory};
use flat_design::Plan;
use std::alloc::Global;

/// The plan of a body, whose elements stand in this order, as `Elements::order` gives it, each with what
/// stands for it. `before` knows the endpoints of the modules that the body may instance. It asks nothing of
/// the body: what has no place has the place 0. It takes time in n log n.
pub fn plan_body<'v, 'a>(
    alloc: Global,
    scope: &ScopeNames<'v, 'a>,
    before: &ModulesBefore<'_, 'a>,
    elements: &Elements<'a>,
    order: &[OrderedElement],
) -> Result<BodyPlan, NoMemory>
    ensures { IfOk result (λ planned. planned ≡ plan_of scope.now before.now elements.now order.now) }
{
    let servers = server_endpoints(alloc, scope, before)?;
    let to_server = count_of(servers.as_slice());
    let given = given_channels(alloc, scope, servers.as_slice())?;
    let places = places_along(alloc, scope, before, elements, given.as_slice(), order)?;
    plan_placed(
        alloc, scope, before, elements, order, &places, given, to_server,
    )
}

/// The same, where the places of all channels are known.
fn plan_placed<'v, 'a>(
    alloc: Global,
    scope: &ScopeNames<'v, 'a>,
    before: &ModulesBefore<'_, 'a>,
    elements: &Elements<'a>,
    order: &[OrderedElement],
    places: &PlaceTable<'a>,
    given: List<ChannelKey<'a>>,
    to_server: usize,
) -> Result<BodyPlan, NoMemory>
    requires given { map channel_of given ≡ given_by scope.now before.now }
    requires to_server { to_server ≡ length (servers_by scope.now before.now) }
    requires places { places.now ≡ places_of (channels_by scope.now before.now elements.now order.now) }
    ensures { IfOk result (λ planned. planned ≡ plan_of scope.now before.now elements.now order.now) }
{
    plan_over(
        alloc, scope, before, elements, order, places, given, to_server,
    )
}

/// The plan of a body, the places of whose channels are known, of which these are given.
fn plan_over<'v, 'a>(
    alloc: Global,
    scope: &ScopeNames<'v, 'a>,
    before: &ModulesBefore<'_, 'a>,
    elements: &Elements<'a>,
    order: &[OrderedElement],
    places: &PlaceTable<'a>,
    given: List<ChannelKey<'a>>,
    to_server: usize,
) -> Result<BodyPlan, NoMemory>
    requires given { map channel_of given ≡ given_by scope.now before.now }
    requires to_server { to_server ≡ length (servers_by scope.now before.now) }
    ensures { IfOk result (λ planned. planned ≡ plan_over_by scope.now before.now elements.now order.now places.now (drives_of scope.now.statements)) }
{
    let steps = steps_of(alloc, scope, before, elements, places, given, order)?;
    let drives = drives_among(alloc, scope)?;
    let ports = own_out_ports(alloc, scope, places, &drives)?;
    let clients = client_endpoints(alloc, scope, before, places, &drives)?;
    let to_client = clients.len();
    let outs = joined(ports, clients.as_slice())?;
    Ok(BodyPlan {
        plan: Plan { steps, outs },
        endpoints: Endpoints {
            to_server,
            to_client,
        },
    })
}

/// What a body drives.
fn drives_among<'v, 'a>(
    alloc: Global,
    scope: &ScopeNames<'v, 'a>,
) -> Result<DriveTable<'a>, NoMemory>
    ensures { IfOk result (λ drives. drives ≡ drives_of scope.now.statements) }
{
    DriveTable::of(alloc, scope.body.statements.as_slice())
}

/// The places of what drives the `out` ports of a body.
fn own_out_ports<'v, 'a>(
    alloc: Global,
    scope: &ScopeNames<'v, 'a>,
    places: &PlaceTable<'a>,
    drives: &DriveTable<'a>,
) -> Result<List<usize>, NoMemory>
    ensures { IfOk result (λ outs. outs ≡ port_places places.now drives.now scope.now.ports) }
{
    out_ports(alloc, places, drives, scope.body.ports)
}

/// Some places, and others behind them.
fn joined(first: List<usize>, others: &[usize]) -> Result<List<usize>, NoMemory>
    ensures { IfOk result (λ places. places ≡ first ++ others.now) }
{
    let mut places = first;
    places.push_all(others)?;
    Ok(places)
}

/// The places of all channels of a body, of which these are given.
fn places_along<'v, 'a>(
    alloc: Global,
    scope: &ScopeNames<'v, 'a>,
    before: &ModulesBefore<'_, 'a>,
    elements: &Elements<'a>,
    given: &[ChannelKey<'a>],
    order: &[OrderedElement],
) -> Result<PlaceTable<'a>, NoMemory>
    requires { map channel_of given.now ≡ given_by scope.now before.now }
    ensures { IfOk result (λ places. places ≡ places_of (channels_by scope.now before.now elements.now order.now)) }
{
    let mut channels = List::from_slice(alloc, given)?;
    add_all_made(scope, before, elements, &mut channels, order)?;
    PlaceTable::of(alloc, channels.as_slice())
}
