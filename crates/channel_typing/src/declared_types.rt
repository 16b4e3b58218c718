//! The types that are declared.
ghost use Rattle.std.specs.Prelude.{◌≡◌, option_copied, option_map, slice_get};
ghost use Rattle.check_rules.specs.Scopes.{and_then, find_id, find_port};
ghost use Rattle.channel_typing.specs.DeclaredTypes.{declared_type, part_type, member_type, port_type, type_of_port};

use channel_types::EsiType;
use check_rules::keys::name_key;
use design_scopes::body_names::owner_of;
use design_scopes::bundles::BundleNames;
use design_scopes::modules::ModuleNames;
use design_scopes::scope_names::ScopeNames;
use design_tree::{ApplicationId, ModulePort, Name, Reference, Statement};

/// The type with which what a reference is to is declared, if it is declared with one.
pub(crate) fn declared_type<'v, 'a>(
    scope: &ScopeNames<'v, 'a>,
    reference: &'a Reference,
) -> Option<&'a EsiType>
    ensures { option_copied result ≡ declared_type scope.now reference.now }
{
    match reference {
        Reference::Channel(name) => type_of_port(own_port(scope, name)),
        Reference::Member { id, name } => part_type(scope, name, owner(scope, id)),
    }
}

/// The first port of the body's module that has a name.
#[tactic(auto, using(crate::proofs::OwnPorts::port_found))]
fn own_port<'v, 'a>(scope: &ScopeNames<'v, 'a>, name: &'a Name) -> Option<&'a ModulePort>
    ensures { option_copied result ≡ find_port name.now scope.now.ports }
{
    port_at(scope.body.ports, scope.names.own.find(&name_key(name)))
}

/// The port at an index, if there is one.
fn port_at(ports: &[ModulePort], index: Option<usize>) -> Option<&ModulePort>
    ensures { option_copied result ≡ and_then index (slice_get ports.now) }
{
    match index {
        Some(found) => ports.get(found),
        None => None,
    }
}

/// The request or the instance of an application id.
fn owner<'v, 'a>(scope: &ScopeNames<'v, 'a>, id: &'a ApplicationId) -> Option<&'a Statement>
    ensures { option_copied result ≡ find_id id.now scope.now.statements }
{
    owner_of(scope.body, scope.names, id)
}

fn type_of_port<'a>(port: Option<&'a ModulePort>) -> Option<&'a EsiType>
    ensures { option_copied result ≡ option_map type_of_port (option_copied port.entry) }
{
    port.map(|found| &found.ty)
}

/// The type of a part of a request or of an instance.
fn part_type<'v, 'a>(
    scope: &ScopeNames<'v, 'a>,
    name: &'a Name,
    owner: Option<&'a Statement>,
) -> Option<&'a EsiType>
    ensures { option_copied result ≡ part_type scope.now name.now (option_copied owner.entry) }
{
    match owner {
        None => None,
        Some(Statement::Request { service, port, .. }) => {
            member_type(name, scope.find_bundle(service, port))
        }
        Some(Statement::Instance { module, .. }) => port_type(name, scope.find_module(module)),
        Some(Statement::Channels { .. } | Statement::Drive { .. }) => None,
    }
}

/// The type of a member of a bundle.
fn member_type<'v, 'a>(name: &'a Name, bundle: Option<&'v BundleNames<'a>>) -> Option<&'a EsiType>
    ensures { option_copied result ≡ member_type name.now (option_copied bundle.entry) }
{
    match bundle {
        None => None,
        Some(found) => found.find(name).map(|member| &member.ty),
    }
}

/// The type of a port of a module.
pub(crate) fn port_type<'v, 'a>(
    name: &'a Name,
    source: Option<&'v ModuleNames<'a>>,
) -> Option<&'a EsiType>
    ensures { option_copied result ≡ port_type name.now (option_copied source.entry) }
{
    match source {
        None => None,
        Some(found) => type_of_port(found.find(name)),
    }
}
