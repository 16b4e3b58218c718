//! The channels that the elements of a body make, by name.
ghost use Rattle.std.specs.Prelude.{◌≡◌, ◌++◌, ◌∷◌, ◌-◌, [], map, flat_map, filter, replicate, OnOk, option_copied};
ghost use Rattle.check_rules.specs.Uses.{is_out};
ghost use Rattle.check_rules.specs.Directions.{ports_of};
ghost use Rattle.body_plans.specs.Channels.{inner, name_channel, instance_channel, made_by, made_if, made_at};
ghost use Rattle.body_plans.specs.Views.{channel_of};

use crate::before::ModulesBefore;
use crate::channel::ChannelKey;
use crate::channels::{add_endpoints, client_key, inner_channel, under_key};
use crate::lookup::element_at;
use crate::ordered::OrderedElement;
use body_order::Elements;
use check_rules::keys::{name_key, part_key};
use design_scopes::modules::ModuleNames;
use design_scopes::scope_names::ScopeNames;
use design_tree::{ApplicationId, ModulePort, Name, PortDirection, Statement};
use esi_base::{List, NoMemory};

/// Adds the channels that elements make, in their order.
pub(crate) fn add_all_made<'v, 'a>(
    scope: &ScopeNames<'v, 'a>,
    before: &ModulesBefore<'_, 'a>,
    elements: &Elements<'a>,
    channels: &mut List<ChannelKey<'a>>,
    order: &[OrderedElement],
) -> Result<(), NoMemory>
    ensures { OnOk result (map channel_of channels.new ≡ map channel_of channels.old ++ flat_map (made_at scope.now before.now elements.now) order.now) }
{
    for element in order {
        add_made(scope, before, elements, channels, element)?;
    }
    Ok(())
}

/// Adds the channels that an element makes.
pub(crate) fn add_made<'v, 'a>(
    scope: &ScopeNames<'v, 'a>,
    before: &ModulesBefore<'_, 'a>,
    elements: &Elements<'a>,
    channels: &mut List<ChannelKey<'a>>,
    element: &OrderedElement,
) -> Result<(), NoMemory>
    ensures { OnOk result (map channel_of channels.new ≡ map channel_of channels.old ++ made_at scope.now before.now elements.now element.now) }
{
    add_made_if(
        scope,
        before,
        channels,
        element,
        element_at(elements, element.number),
    )
}

/// Adds the channels that a statement makes, if there is one.
fn add_made_if<'v, 'a>(
    scope: &ScopeNames<'v, 'a>,
    before: &ModulesBefore<'_, 'a>,
    channels: &mut List<ChannelKey<'a>>,
    element: &OrderedElement,
    found: Option<&'a Statement>,
) -> Result<(), NoMemory>
    ensures { OnOk result (map channel_of channels.new ≡ map channel_of channels.old ++ made_if scope.now before.now element.now (option_copied found.entry)) }
{
    match found {
        None => Ok(()),
        Some(statement) => add_made_by(scope, before, channels, element, statement),
    }
}

/// Adds the channels that a statement makes.
pub(crate) fn add_made_by<'v, 'a>(
    scope: &ScopeNames<'v, 'a>,
    before: &ModulesBefore<'_, 'a>,
    channels: &mut List<ChannelKey<'a>>,
    element: &OrderedElement,
    statement: &'a Statement,
) -> Result<(), NoMemory>
    ensures { OnOk result (map channel_of channels.new ≡ map channel_of channels.old ++ made_by scope.now before.now element.now statement.now) }
{
    match statement {
        Statement::Request { .. } | Statement::Drive { .. } => Ok(()),
        Statement::Instance { id, module, .. } => {
            add_instance_outs(channels, id, scope.find_module(module))?;
            add_endpoints(channels, client_key(id), before.endpoints(module).to_client)
        }
        Statement::Channels { names, .. } => {
            add_inner(channels, before_last(element.count))?;
            add_names(channels, names.as_slice())
        }
    }
}

fn add_instance_outs<'a>(
    channels: &mut List<ChannelKey<'a>>,
    id: &'a ApplicationId,
    source: Option<&ModuleNames<'a>>,
) -> Result<(), NoMemory>
    ensures { OnOk result (map channel_of channels.new ≡ map channel_of channels.old ++ map (instance_channel id.now) (filter is_out (ports_of (option_copied source.entry)))) }
{
    match source {
        None => Ok(()),
        Some(found) => add_outs(channels, id, found.ports()),
    }
}

fn add_outs<'a>(
    channels: &mut List<ChannelKey<'a>>,
    id: &'a ApplicationId,
    ports: &'a [ModulePort],
) -> Result<(), NoMemory>
    ensures { OnOk result (map channel_of channels.new ≡ map channel_of channels.old ++ map (instance_channel id.now) (filter is_out ports.now)) }
{
    for port in ports {
        add_if_out(channels, id, port)?;
    }
    Ok(())
}

fn add_if_out<'a>(
    channels: &mut List<ChannelKey<'a>>,
    id: &'a ApplicationId,
    port: &'a ModulePort,
) -> Result<(), NoMemory>
    ensures { OnOk result (map channel_of channels.new ≡ map channel_of channels.old ++ map (instance_channel id.now) (filter is_out (port.now ∷ []))) }
{
    match port.direction {
        PortDirection::In => Ok(()),
        PortDirection::Out => channels.add(under_key(part_key(id, &port.name))),
    }
}

fn add_inner<'a>(channels: &mut List<ChannelKey<'a>>, count: usize) -> Result<(), NoMemory>
    ensures { OnOk result (map channel_of channels.new ≡ map channel_of channels.old ++ replicate count inner) }
{
    let channel = inner_channel();
    for turn in 0..count {
        channels.add(channel)?;
    }
    Ok(())
}

/// Adds channels under their names.
pub(crate) fn add_names<'a>(
    channels: &mut List<ChannelKey<'a>>,
    names: &'a [Name],
) -> Result<(), NoMemory>
    ensures { OnOk result (map channel_of channels.new ≡ map channel_of channels.old ++ map name_channel names.now) }
{
    for name in names {
        channels.add(under_key(name_key(name)))?;
    }
    Ok(())
}

/// How many of a row stand before the last one.
pub(crate) fn before_last(count: usize) -> usize
    ensures { result ≡ count - 1 }
{
    if count == 0 { 0 } else { count - 1 }
}
