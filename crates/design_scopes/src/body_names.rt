//! The names of a body's own: its module's ports, its channels, and its application ids.
ghost use Rattle.std.specs.Prelude.{◌≡◌, ◌++◌, map, flat_map, IfOk, OnOk, option_copied};
ghost use Rattle.name_tables.specs.Keys.{label_of};
ghost use Rattle.check_rules.specs.References.{channels_of};
ghost use Rattle.check_rules.specs.Scopes.{find_id};
ghost use Rattle.design_scopes.specs.Bodies.{referred, statements_in};
ghost use Rattle.design_scopes.specs.Tables.{port_label, name_label};
ghost use Rattle.design_scopes.specs.Resolving.{IsNamesOf, id_labels, id_owners};

use crate::body::Body;
use crate::lookup::at;
use check_rules::keys::{id_key, name_key};
use design_tree::{ApplicationId, ModulePort, Name, Statement};
use esi_base::{List, NoMemory};
use name_tables::{Key, NameTable};
use std::alloc::Global;

/// The names of a body's own, found by name.
#[derive(Drop)]
pub struct BodyNames<'a> {
    /// The ports of its module, and after them its channels.
    pub own: NameTable<'a>,
    /// The application ids of its requests and instances.
    pub ids: NameTable<'a>,
    /// The requests and instances, one for each id.
    pub owners: List<&'a Statement>,
}

impl<'a> BodyNames<'a> {
    /// The names of a body.
    pub fn of(alloc: Global, body: &Body<'a>) -> Result<BodyNames<'a>, NoMemory>
        ensures { IfOk result (IsNamesOf body.now) }
    {
        let own = own_keys(alloc, body.ports, body.statements.as_slice())?;
        let mut ids = List::new(alloc);
        let mut owners = List::new(alloc);
        add_owners(&mut ids, &mut owners, body.statements.as_slice())?;
        Ok(BodyNames {
            own: NameTable::of(alloc, own)?,
            ids: NameTable::of(alloc, ids)?,
            owners,
        })
    }
}

/// The request or the instance of an application id, the first if there are several.
#[tactic(auto, using(crate::proofs::Resolved::owner_found))]
pub fn owner_of<'a>(
    body: &Body<'a>,
    names: &BodyNames<'a>,
    id: &'a ApplicationId,
) -> Option<&'a Statement>
    requires { IsNamesOf body.now names.now }
    ensures { option_copied result ≡ find_id id.now (statements_in body.now) }
{
    let _statements = body.statements.as_slice();
    at(names.owners.as_slice(), names.ids.find(&id_key(id))).copied()
}

fn own_keys<'a>(
    alloc: Global,
    ports: &'a [ModulePort],
    statements: &[&'a Statement],
) -> Result<List<Key<'a>>, NoMemory>
    ensures { IfOk result (λ keys. map label_of keys ≡ map port_label ports.now ++ flat_map (λ s. map name_label (channels_of s.now)) statements.now) }
{
    let mut keys = List::new(alloc);
    add_ports(&mut keys, ports)?;
    for statement in statements {
        add_channels(&mut keys, statement)?;
    }
    Ok(keys)
}

fn add_ports<'a>(keys: &mut List<Key<'a>>, ports: &'a [ModulePort]) -> Result<(), NoMemory>
    ensures { OnOk result (map label_of keys.new ≡ map label_of keys.old ++ map port_label ports.now) }
{
    for port in ports {
        keys.add(name_key(&port.name))?;
    }
    Ok(())
}

fn add_channels<'a>(keys: &mut List<Key<'a>>, statement: &'a Statement) -> Result<(), NoMemory>
    ensures { OnOk result (map label_of keys.new ≡ map label_of keys.old ++ map name_label (channels_of statement.now)) }
{
    match statement {
        Statement::Request { .. } | Statement::Instance { .. } | Statement::Drive { .. } => Ok(()),
        Statement::Channels { names, .. } => add_names(keys, names.as_slice()),
    }
}

fn add_names<'a>(keys: &mut List<Key<'a>>, names: &'a [Name]) -> Result<(), NoMemory>
    ensures { OnOk result (map label_of keys.new ≡ map label_of keys.old ++ map name_label names.now) }
{
    for name in names {
        keys.add(name_key(name))?;
    }
    Ok(())
}

fn add_owners<'a>(
    ids: &mut List<Key<'a>>,
    owners: &mut List<&'a Statement>,
    statements: &[&'a Statement],
) -> Result<(), NoMemory>
    ensures ids { OnOk result (map label_of ids.new ≡ map label_of ids.old ++ flat_map (λ s. id_labels s.now) statements.now) }
    ensures owners { OnOk result (referred owners.new ≡ referred owners.old ++ flat_map (λ s. id_owners s.now) statements.now) }
{
    for statement in statements {
        add_owner(ids, owners, statement)?;
    }
    Ok(())
}

fn add_owner<'a>(
    ids: &mut List<Key<'a>>,
    owners: &mut List<&'a Statement>,
    statement: &'a Statement,
) -> Result<(), NoMemory>
    ensures ids { OnOk result (map label_of ids.new ≡ map label_of ids.old ++ id_labels statement.now) }
    ensures owners { OnOk result (referred owners.new ≡ referred owners.old ++ id_owners statement.now) }
{
    match statement {
        Statement::Request { id, .. } | Statement::Instance { id, .. } => {
            ids.add(id_key(id))?;
            owners.add(statement)
        }
        Statement::Channels { .. } | Statement::Drive { .. } => Ok(()),
    }
}
