//! The channels that a body is given, by name.
ghost use Rattle.std.specs.Prelude.{◌≡◌, ◌++◌, ◌∷◌, [], map, flat_map, filter, replicate, IfOk, OnOk, option_copied};
ghost use Rattle.name_tables.specs.Keys.{label_of};
ghost use Rattle.check_rules.specs.Uses.{is_in};
ghost use Rattle.design_scopes.specs.Bodies.{referred};
ghost use Rattle.body_plans.specs.Channels.{no_name, under_name, under_endpoint, inner, server_label, client_label, is_to_server, port_channel, member_channel, server_members, server_channels, server_endpoints, given};
ghost use Rattle.body_plans.specs.Views.{channel_of};

use crate::before::ModulesBefore;
use crate::channel::ChannelKey;
use check_rules::keys::{name_key, part_key};
use design_scopes::bundles::BundleNames;
use design_scopes::scope_names::ScopeNames;
use design_tree::{ApplicationId, Direction, Member, ModulePort, PortDirection, Statement};
use esi_base::{List, NoMemory};
use name_tables::Key;
use std::alloc::Global;

/// The endpoints to the server that belong to a body, in the text's order.
pub(crate) fn server_endpoints<'v, 'a>(
    alloc: Global,
    scope: &ScopeNames<'v, 'a>,
    before: &ModulesBefore<'_, 'a>,
) -> Result<List<ChannelKey<'a>>, NoMemory>
    ensures { IfOk result (λ channels. map channel_of channels ≡ server_endpoints scope.now before.now) }
{
    let mut channels = List::new(alloc);
    add_servers(
        scope,
        before,
        &mut channels,
        scope.body.statements.as_slice(),
    )?;
    Ok(channels)
}

/// The channels that a body is given: its `in` ports, and then these endpoints to the server.
pub(crate) fn given_channels<'v, 'a>(
    alloc: Global,
    scope: &ScopeNames<'v, 'a>,
    endpoints: &[ChannelKey<'a>],
) -> Result<List<ChannelKey<'a>>, NoMemory>
    ensures { IfOk result (λ channels. map channel_of channels ≡ map port_channel (filter is_in scope.now.ports) ++ map channel_of endpoints.now) }
{
    let mut channels = List::new(alloc);
    add_in_ports(&mut channels, scope.body.ports)?;
    channels.push_all(endpoints)?;
    Ok(channels)
}

fn add_servers<'v, 'a>(
    scope: &ScopeNames<'v, 'a>,
    before: &ModulesBefore<'_, 'a>,
    channels: &mut List<ChannelKey<'a>>,
    statements: &[&'a Statement],
) -> Result<(), NoMemory>
    ensures { OnOk result (map channel_of channels.new ≡ map channel_of channels.old ++ flat_map (server_channels scope.now before.now) (referred statements.now)) }
{
    for statement in statements {
        add_server_channels(scope, before, channels, statement)?;
    }
    Ok(())
}

fn add_server_channels<'v, 'a>(
    scope: &ScopeNames<'v, 'a>,
    before: &ModulesBefore<'_, 'a>,
    channels: &mut List<ChannelKey<'a>>,
    statement: &'a Statement,
) -> Result<(), NoMemory>
    ensures { OnOk result (map channel_of channels.new ≡ map channel_of channels.old ++ server_channels scope.now before.now statement.now) }
{
    match statement {
        Statement::Request {
            service,
            port,
            id,
            ..
        } => add_server_members(channels, id, scope.find_bundle(service, port)),
        Statement::Instance { id, module, .. } => {
            add_endpoints(channels, server_key(id), before.endpoints(module).to_server)
        }
        Statement::Channels { .. } | Statement::Drive { .. } => Ok(()),
    }
}

fn add_server_members<'a>(
    channels: &mut List<ChannelKey<'a>>,
    id: &'a ApplicationId,
    bundle: Option<&BundleNames<'a>>,
) -> Result<(), NoMemory>
    ensures { OnOk result (map channel_of channels.new ≡ map channel_of channels.old ++ map (member_channel id.now) (server_members (option_copied bundle.entry))) }
{
    match bundle {
        None => Ok(()),
        Some(found) => add_members(channels, id, found.members()),
    }
}

fn add_members<'a>(
    channels: &mut List<ChannelKey<'a>>,
    id: &'a ApplicationId,
    members: &'a [Member],
) -> Result<(), NoMemory>
    ensures { OnOk result (map channel_of channels.new ≡ map channel_of channels.old ++ map (member_channel id.now) (filter is_to_server members.now)) }
{
    for member in members {
        add_if_to_server(channels, id, member)?;
    }
    Ok(())
}

fn add_if_to_server<'a>(
    channels: &mut List<ChannelKey<'a>>,
    id: &'a ApplicationId,
    member: &'a Member,
) -> Result<(), NoMemory>
    ensures { OnOk result (map channel_of channels.new ≡ map channel_of channels.old ++ map (member_channel id.now) (filter is_to_server (member.now ∷ []))) }
{
    match member.direction {
        Direction::ToHardware => channels.add(under_key(part_key(id, &member.name))),
        Direction::FromHardware => Ok(()),
    }
}

fn add_in_ports<'a>(
    channels: &mut List<ChannelKey<'a>>,
    ports: &'a [ModulePort],
) -> Result<(), NoMemory>
    ensures { OnOk result (map channel_of channels.new ≡ map channel_of channels.old ++ map port_channel (filter is_in ports.now)) }
{
    for port in ports {
        add_if_in(channels, port)?;
    }
    Ok(())
}

fn add_if_in<'a>(channels: &mut List<ChannelKey<'a>>, port: &'a ModulePort) -> Result<(), NoMemory>
    ensures { OnOk result (map channel_of channels.new ≡ map channel_of channels.old ++ map port_channel (filter is_in (port.now ∷ []))) }
{
    match port.direction {
        PortDirection::In => channels.add(under_key(name_key(&port.name))),
        PortDirection::Out => Ok(()),
    }
}

/// Adds so many endpoints of one side of an instance.
pub(crate) fn add_endpoints<'a>(
    channels: &mut List<ChannelKey<'a>>,
    endpoint: Key<'a>,
    count: usize,
) -> Result<(), NoMemory>
    ensures { OnOk result (map channel_of channels.new ≡ map channel_of channels.old ++ replicate count (under_endpoint (label_of endpoint.entry))) }
{
    let channel = endpoint_channel(endpoint);
    for turn in 0..count {
        channels.add(channel)?;
    }
    Ok(())
}

/// A channel under a name.
pub(crate) fn under_key<'a>(name: Key<'a>) -> ChannelKey<'a>
    ensures { channel_of result ≡ under_name (label_of name.entry) }
{
    ChannelKey {
        name,
        endpoint: no_key(),
    }
}

fn endpoint_channel<'a>(endpoint: Key<'a>) -> ChannelKey<'a>
    ensures { channel_of result ≡ under_endpoint (label_of endpoint.entry) }
{
    ChannelKey {
        name: no_key(),
        endpoint,
    }
}

/// A channel between two parts in a row.
pub(crate) fn inner_channel<'a>() -> ChannelKey<'a>
    ensures { channel_of result ≡ inner }
{
    ChannelKey {
        name: no_key(),
        endpoint: no_key(),
    }
}

fn no_key<'a>() -> Key<'a>
    ensures { label_of result ≡ no_name }
{
    Key {
        owner: None,
        index: Some(0),
        name: &[],
    }
}

/// The endpoints to the server of an instance.
pub(crate) fn server_key<'a>(id: &'a ApplicationId) -> Key<'a>
    ensures { label_of result ≡ server_label id.now }
{
    Key {
        owner: Some(id.name.octets.as_slice()),
        index: id.index,
        name: b"to_server",
    }
}

/// The endpoints to the client of an instance.
pub(crate) fn client_key<'a>(id: &'a ApplicationId) -> Key<'a>
    ensures { label_of result ≡ client_label id.now }
{
    Key {
        owner: Some(id.name.octets.as_slice()),
        index: id.index,
        name: b"to_client",
    }
}
