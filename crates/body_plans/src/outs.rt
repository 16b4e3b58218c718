//! What a body hands out.
ghost use Rattle.std.specs.Prelude.{◌≡◌, ◌++◌, ◌∷◌, [], map, flat_map, filter, IfOk, OnOk, option_copied};
ghost use Rattle.name_tables.specs.Keys.{label_of};
ghost use Rattle.check_rules.specs.References.{part_label};
ghost use Rattle.design_scopes.specs.Bodies.{referred};
ghost use Rattle.body_plans.specs.Channels.{is_to_client, client_members};
ghost use Rattle.body_plans.specs.Plans.{sinks_of, drivers_of, drives_of, driver_place, client_places, client_endpoints, port_places};

use crate::before::ModulesBefore;
use crate::channels::client_key;
use crate::lookup::found_at;
use crate::places::PlaceTable;
use check_rules::keys::{name_key, part_key, reference_mark};
use design_scopes::bundles::BundleNames;
use design_scopes::scope_names::ScopeNames;
use design_tree::{
    ApplicationId, Direction, Member, ModulePort, PortDirection, Reference, Statement,
};
use esi_base::{List, NoMemory};
use name_tables::{Key, NameTable};
use std::alloc::Global;
use std::marker::Model;

/// The sinks that a body drives, found by name, and what drives each. Contracts see both lists.
#[derive(Drop)]
pub(crate) struct DriveTable<'a> {
    sinks: NameTable<'a>,
    sources: List<&'a Reference>,
}

impl<'a> Model for DriveTable<'a> {
    ghost use Rattle.design_scopes.specs.Bodies.{referred};
    ghost use Rattle.body_plans.specs.Plans.{Drives};
    ghost use Rattle.body_plans.specs.DriveViews.{drives_in};

    ghost Value = { Drives };

    ghost view = { λ d. drives_in d.sinks (referred d.sources) };
}

impl<'a> DriveTable<'a> {
    /// The drives among some statements.
    pub(crate) fn of(
        alloc: Global,
        statements: &[&'a Statement],
    ) -> Result<DriveTable<'a>, NoMemory>
        ensures { IfOk result (λ drives. drives ≡ drives_of (referred statements.now)) }
    {
        let mut sinks = List::new(alloc);
        let mut sources = List::new(alloc);
        for statement in statements {
            add_drive(&mut sinks, &mut sources, statement)?;
        }
        Ok(DriveTable {
            sinks: NameTable::of(alloc, sinks)?,
            sources,
        })
    }

    /// The place of what drives a sink; 0 where nothing does.
    fn driver(&self, places: &PlaceTable<'a>, sink: &Key<'a>) -> usize
        ensures { result ≡ driver_place places.now self.now (label_of sink.now) }
    {
        match found_at(self.sources.as_slice(), self.sinks.find(sink)) {
            None => 0,
            Some(source) => places.source(source),
        }
    }
}

fn add_drive<'a>(
    sinks: &mut List<Key<'a>>,
    sources: &mut List<&'a Reference>,
    statement: &'a Statement,
) -> Result<(), NoMemory>
    ensures sinks { OnOk result (map label_of sinks.new ≡ map label_of sinks.old ++ sinks_of statement.now) }
    ensures sources { OnOk result (referred sources.new ≡ referred sources.old ++ drivers_of statement.now) }
{
    match statement {
        Statement::Request { .. } | Statement::Instance { .. } | Statement::Channels { .. } => {
            Ok(())
        }
        Statement::Drive { sink, source, .. } => {
            sinks.add(reference_mark(sink).key)?;
            sources.add(source)
        }
    }
}

/// The places of what drives the `out` ports of a body.
pub(crate) fn out_ports<'a>(
    alloc: Global,
    places: &PlaceTable<'a>,
    drives: &DriveTable<'a>,
    ports: &'a [ModulePort],
) -> Result<List<usize>, NoMemory>
    ensures { IfOk result (λ outs. outs ≡ port_places places.now drives.now ports.now) }
{
    let mut outs = List::new(alloc);
    for port in ports {
        add_if_out(places, drives, &mut outs, port)?;
    }
    Ok(outs)
}

fn add_if_out<'a>(
    places: &PlaceTable<'a>,
    drives: &DriveTable<'a>,
    outs: &mut List<usize>,
    port: &'a ModulePort,
) -> Result<(), NoMemory>
    ensures { OnOk result (outs.new ≡ outs.old ++ port_places places.now drives.now (port.now ∷ [])) }
{
    match port.direction {
        PortDirection::In => Ok(()),
        PortDirection::Out => outs.add(drives.driver(places, &name_key(&port.name))),
    }
}

/// The places of the endpoints to the client that belong to a body, in the text's order.
pub(crate) fn client_endpoints<'v, 'a>(
    alloc: Global,
    scope: &ScopeNames<'v, 'a>,
    before: &ModulesBefore<'_, 'a>,
    places: &PlaceTable<'a>,
    drives: &DriveTable<'a>,
) -> Result<List<usize>, NoMemory>
    ensures { IfOk result (λ outs. outs ≡ client_endpoints scope.now before.now places.now drives.now) }
{
    let mut outs = List::new(alloc);
    add_clients(
        scope,
        before,
        places,
        drives,
        &mut outs,
        scope.body.statements.as_slice(),
    )?;
    Ok(outs)
}

fn add_clients<'v, 'a>(
    scope: &ScopeNames<'v, 'a>,
    before: &ModulesBefore<'_, 'a>,
    places: &PlaceTable<'a>,
    drives: &DriveTable<'a>,
    outs: &mut List<usize>,
    statements: &[&'a Statement],
) -> Result<(), NoMemory>
    ensures { OnOk result (outs.new ≡ outs.old ++ flat_map (client_places scope.now before.now places.now drives.now) (referred statements.now)) }
{
    for statement in statements {
        add_client(scope, before, places, drives, outs, statement)?;
    }
    Ok(())
}

fn add_client<'v, 'a>(
    scope: &ScopeNames<'v, 'a>,
    before: &ModulesBefore<'_, 'a>,
    places: &PlaceTable<'a>,
    drives: &DriveTable<'a>,
    outs: &mut List<usize>,
    statement: &'a Statement,
) -> Result<(), NoMemory>
    ensures { OnOk result (outs.new ≡ outs.old ++ client_places scope.now before.now places.now drives.now statement.now) }
{
    match statement {
        Statement::Request {
            service,
            port,
            id,
            ..
        } => add_client_members(places, drives, outs, id, scope.find_bundle(service, port)),
        Statement::Instance { id, module, .. } => {
            places.add_endpoints(outs, &client_key(id), before.endpoints(module).to_client)
        }
        Statement::Channels { .. } | Statement::Drive { .. } => Ok(()),
    }
}

fn add_client_members<'a>(
    places: &PlaceTable<'a>,
    drives: &DriveTable<'a>,
    outs: &mut List<usize>,
    id: &'a ApplicationId,
    bundle: Option<&BundleNames<'a>>,
) -> Result<(), NoMemory>
    ensures { OnOk result (outs.new ≡ outs.old ++ map (λ m. driver_place places.now drives.now (part_label id.now m.name)) (client_members (option_copied bundle.entry))) }
{
    match bundle {
        None => Ok(()),
        Some(found) => add_members(places, drives, outs, id, found.members()),
    }
}

fn add_members<'a>(
    places: &PlaceTable<'a>,
    drives: &DriveTable<'a>,
    outs: &mut List<usize>,
    id: &'a ApplicationId,
    members: &'a [Member],
) -> Result<(), NoMemory>
    ensures { OnOk result (outs.new ≡ outs.old ++ map (λ m. driver_place places.now drives.now (part_label id.now m.name)) (filter is_to_client members.now)) }
{
    for member in members {
        add_if_to_client(places, drives, outs, id, member)?;
    }
    Ok(())
}

fn add_if_to_client<'a>(
    places: &PlaceTable<'a>,
    drives: &DriveTable<'a>,
    outs: &mut List<usize>,
    id: &'a ApplicationId,
    member: &'a Member,
) -> Result<(), NoMemory>
    ensures { OnOk result (outs.new ≡ outs.old ++ map (λ m. driver_place places.now drives.now (part_label id.now m.name)) (filter is_to_client (member.now ∷ []))) }
{
    match member.direction {
        Direction::ToHardware => Ok(()),
        Direction::FromHardware => { outs.add(drives.driver(places, &part_key(id, &member.name))) }
    }
}
