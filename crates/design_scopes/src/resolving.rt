//! What the references of a body refer to.
ghost use Rattle.std.specs.Prelude.{◌≡◌, option_copied};
ghost use Rattle.check_rules.specs.References.{resolve as resolution_of, part_of, member_of, port_of, member_referent, port_referent, instance_referent};
ghost use Rattle.design_scopes.specs.Resolving.{scope_in, IsNamesOf, own_of, own_at_index, port_or_channel, requested};

use crate::body::Body;
use crate::body_names::{BodyNames, owner_of};
use crate::bundles::BundleNames;
use crate::declared::Declared;
use crate::modules::ModuleNames;
use check_rules::keys::name_key;
use check_rules::{Referent, Resolution};
use design_tree::{
    ApplicationId, Direction, Member, ModulePort, Name, PortDirection, Reference, Statement,
};

/// What a reference of a body refers to.
#[tactic(auto, using(crate::proofs::Resolved::own_found))]
pub fn resolve<'a>(
    declared: &Declared<'a>,
    body: &Body<'a>,
    names: &BodyNames<'a>,
    reference: &'a Reference,
) -> Resolution
    requires { IsNamesOf body.now names.now }
    ensures { result ≡ resolution_of (scope_in declared.now body.now) reference.now }
{
    match reference {
        Reference::Channel(name) => resolve_own(body, names, name),
        Reference::Member { id, name } => {
            resolve_part(declared, body, id, name, owner_of(body, names, id))
        }
    }
}

/// A name of the body's own.
fn resolve_own<'a>(body: &Body<'a>, names: &BodyNames<'a>, name: &'a Name) -> Resolution
    requires { IsNamesOf body.now names.now }
    ensures { result ≡ own_of body.now name.now }
{
    own_at(body.ports, name, names.own.find(&name_key(name)))
}

/// A name of a port or a channel, by the index at which it was found.
fn own_at(ports: &[ModulePort], name: &Name, index: Option<usize>) -> Resolution
    ensures { result ≡ own_at_index ports.now name.now index }
{
    match index {
        None => Resolution::Undeclared { at: name.at },
        Some(found) => own_or_channel(ports.get(found)),
    }
}

fn own_or_channel(port: Option<&ModulePort>) -> Resolution
    ensures { result ≡ port_or_channel (option_copied port.entry) }
{
    match port {
        None => Resolution::To(Referent::Channel),
        Some(found) => Resolution::To(referent_of_port(found)),
    }
}

/// A part of a request or an instance.
fn resolve_part<'a>(
    declared: &Declared<'a>,
    body: &Body<'a>,
    id: &'a ApplicationId,
    name: &'a Name,
    owner: Option<&'a Statement>,
) -> Resolution
    ensures { result ≡ part_of (scope_in declared.now body.now) id.now name.now (option_copied owner.entry) }
{
    match owner {
        None => Resolution::Undeclared { at: id.name.at },
        Some(Statement::Request { service, port, .. }) => {
            resolve_member(name, find_requested(declared, service, port))
        }
        Some(Statement::Instance { module, .. }) => {
            resolve_port(name, declared.modules.find(module, body.before))
        }
        Some(Statement::Channels { .. } | Statement::Drive { .. }) => Resolution::Silent,
    }
}

/// The bundle that a request of a service's port gives.
pub fn find_requested<'d, 'a>(
    declared: &'d Declared<'a>,
    service: &'a Name,
    port: &'a Name,
) -> Option<&'d BundleNames<'a>>
    ensures { option_copied result ≡ requested declared.now service.now port.now }
{
    match declared.services.find(service) {
        None => None,
        Some(found) => match found.find(port) {
            None => None,
            Some(service_port) => declared.bundles.find(&service_port.bundle),
        },
    }
}

/// A member of a request's bundle.
fn resolve_member<'a>(name: &'a Name, bundle: Option<&BundleNames<'a>>) -> Resolution
    ensures { result ≡ member_of name.now (option_copied bundle.entry) }
{
    match bundle {
        None => Resolution::Silent,
        Some(found) => match found.find(name) {
            None => Resolution::Undeclared { at: name.at },
            Some(member) => Resolution::To(referent_of_member(member)),
        },
    }
}

/// A port of an instance's module.
fn resolve_port<'a>(name: &'a Name, source: Option<&ModuleNames<'a>>) -> Resolution
    ensures { result ≡ port_of name.now (option_copied source.entry) }
{
    match source {
        None => Resolution::Silent,
        Some(found) => match found.find(name) {
            None => Resolution::Undeclared { at: name.at },
            Some(port) => Resolution::To(referent_of_instance(port)),
        },
    }
}

fn referent_of_member(member: &Member) -> Referent
    ensures { result ≡ member_referent member.now }
{
    match member.direction {
        Direction::ToHardware => Referent::ToHardware,
        Direction::FromHardware => Referent::FromHardware,
    }
}

fn referent_of_port(port: &ModulePort) -> Referent
    ensures { result ≡ port_referent port.now }
{
    match port.direction {
        PortDirection::In => Referent::InPort,
        PortDirection::Out => Referent::OutPort,
    }
}

fn referent_of_instance(port: &ModulePort) -> Referent
    ensures { result ≡ instance_referent port.now }
{
    match port.direction {
        PortDirection::In => Referent::InstanceIn,
        PortDirection::Out => Referent::InstanceOut,
    }
}
