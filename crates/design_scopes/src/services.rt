//! The services of a design, and the ports of each, found by name.
ghost use Rattle.std.specs.Prelude.{◌≡◌, ◌++◌, map, IfOk, OnOk, option_copied};
ghost use Rattle.name_tables.specs.Keys.{label_of};
ghost use Rattle.check_rules.specs.Scopes.{service_in, services_of, find_service, find_service_port};
ghost use Rattle.design_scopes.specs.Tables.{service_label, service_port_label};

use crate::lookup::at;
use check_rules::keys::name_key;
use design_tree::{Declaration, Name, Service, ServicePort};
use esi_base::{List, NoMemory};
use name_tables::{Key, NameTable};
use std::alloc::Global;
use std::marker::Model;

/// A service whose ports are found by name. Contracts see the service.
#[derive(Drop)]
pub struct ServiceNames<'a> {
    service: &'a Service,
    ports: NameTable<'a>,
}

impl<'a> Model for ServiceNames<'a> {
    ghost use Rattle.std.specs.Prelude.{◌≡◌, map};
    ghost use Rattle.design_tree.specs.declared.declarations.Service.{Service};
    ghost use Rattle.channel_types.specs.contracts.esi_type.EsiType as ty;
    ghost use Rattle.std.specs.Coded.{codes};
    ghost use Rattle.design_scopes.specs.Tables.{service_port_label};

    ghost Value = { Service };

    ghost coded = { Prim.hlevel (codes, ty.the_row.coded) };

    ghost view = { λ b. b.service.now };

    ghost invariant = { λ b. b.ports ≡ map service_port_label b.service.now.ports };
}

impl<'a> ServiceNames<'a> {
    /// A service with the names of its ports.
    pub fn of(alloc: Global, service: &'a Service) -> Result<ServiceNames<'a>, NoMemory>
        ensures { IfOk result (λ names. names ≡ service.now) }
    {
        let keys = port_keys(alloc, service.ports.as_slice())?;
        let ports = NameTable::of(alloc, keys)?;
        Ok(ServiceNames { service, ports })
    }

    /// Its ports, in the text's order.
    pub fn ports(&self) -> &'a [ServicePort]
        ensures { result.now ≡ self.now.ports }
    {
        self.service.ports.as_slice()
    }

    /// The first port of a name.
    #[tactic(auto, using(crate::proofs::Found::service_port_found))]
    pub fn find(&self, name: &'a Name) -> Option<&'a ServicePort>
        ensures { option_copied result ≡ find_service_port name.now self.now.ports }
    {
        at(
            self.service.ports.as_slice(),
            self.ports.find(&name_key(name)),
        )
    }
}

fn port_keys<'a>(alloc: Global, ports: &'a [ServicePort]) -> Result<List<Key<'a>>, NoMemory>
    ensures { IfOk result (λ keys. map label_of keys ≡ map service_port_label ports.now) }
{
    let mut keys = List::new(alloc);
    for port in ports {
        keys.add(name_key(&port.name))?;
    }
    Ok(keys)
}

/// The services of a design, found by name. Contracts see the list of the services.
#[derive(Drop)]
pub struct Services<'a> {
    services: List<ServiceNames<'a>>,
    names: NameTable<'a>,
}

impl<'a> Model for Services<'a> {
    ghost use Rattle.std.specs.Prelude.{◌≡◌, map, List as Listed};
    ghost use Rattle.design_tree.specs.declared.declarations.Service.{Service};
    ghost use Rattle.channel_types.specs.contracts.esi_type.EsiType as ty;
    ghost use Rattle.std.specs.Coded.{codes};
    ghost use Rattle.design_scopes.specs.Tables.{service_label};

    ghost Value = { Listed Service };

    ghost coded = { Prim.hlevel (codes, ty.the_row.coded) };

    ghost view = { λ t. t.services };

    ghost invariant = { λ t. t.names ≡ map service_label t.services };
}

impl<'a> Services<'a> {
    /// The services among some declarations.
    pub fn of(alloc: Global, declarations: &'a [Declaration]) -> Result<Services<'a>, NoMemory>
        ensures { IfOk result (λ table. table ≡ services_of declarations.now) }
    {
        let mut services = List::new(alloc);
        let mut keys = List::new(alloc);
        for declaration in declarations {
            add_if_service(alloc, &mut services, &mut keys, declaration)?;
        }
        let names = NameTable::of(alloc, keys)?;
        Ok(Services { services, names })
    }

    /// The services, in the text's order.
    pub fn all(&self) -> &[ServiceNames<'a>]
        ensures { result.now ≡ self.now }
    {
        self.services.as_slice()
    }

    /// The first service of a name.
    #[tactic(auto, using(crate::proofs::Found::service_found))]
    pub fn find(&self, name: &'a Name) -> Option<&ServiceNames<'a>>
        ensures { option_copied result ≡ find_service name.now self.now }
    {
        at(self.services.as_slice(), self.names.find(&name_key(name)))
    }
}

/// Adds the declaration and its name, if it is a service.
fn add_if_service<'a>(
    alloc: Global,
    services: &mut List<ServiceNames<'a>>,
    keys: &mut List<Key<'a>>,
    declaration: &'a Declaration,
) -> Result<(), NoMemory>
    ensures services { OnOk result (services.new ≡ services.old ++ service_in declaration.now) }
    ensures keys { OnOk result (map label_of keys.new ≡ map label_of keys.old ++ map service_label (service_in declaration.now)) }
{
    match declaration {
        Declaration::Service(service) => {
            services.add(ServiceNames::of(alloc, service)?)?;
            keys.add(name_key(&service.name))
        }
        Declaration::Bundle(_) | Declaration::Module(_) => Ok(()),
    }
}
