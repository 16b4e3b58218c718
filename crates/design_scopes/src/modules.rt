//! The modules of a design, and the ports of each, found by name.
ghost use Rattle.std.specs.Prelude.{◌≡◌, ◌++◌, map, take, IfOk, OnOk, option_copied};
ghost use Rattle.name_tables.specs.Keys.{label_of};
ghost use Rattle.check_rules.specs.Scopes.{module_in, modules_of, find_module, find_port};
ghost use Rattle.design_scopes.specs.Tables.{module_label, port_label};

use crate::lookup::{at, at_below};
use check_rules::keys::name_key;
use design_tree::{Declaration, Module, ModulePort, Name};
use esi_base::{List, NoMemory};
use name_tables::{Key, NameTable};
use std::alloc::Global;
use std::marker::Model;

/// A module whose ports are found by name. Contracts see the module.
#[derive(Drop)]
pub struct ModuleNames<'a> {
    source: &'a Module,
    ports: NameTable<'a>,
}

impl<'a> Model for ModuleNames<'a> {
    ghost use Rattle.std.specs.Prelude.{◌≡◌, map};
    ghost use Rattle.design_tree.specs.declared.declarations.Module.{Module};
    ghost use Rattle.channel_types.specs.contracts.esi_type.EsiType as ty;
    ghost use Rattle.design_tree.specs.contracts.expression.Expression as expression;
    ghost use Rattle.std.specs.Coded.{codes};
    ghost use Rattle.design_scopes.specs.Tables.{port_label};

    ghost Value = { Module };

    ghost coded = { Prim.hlevel (codes, ty.the_row.coded, expression.the_row.coded) };

    ghost view = { λ b. b.source.now };

    ghost invariant = { λ b. b.ports ≡ map port_label b.source.now.ports };
}

impl<'a> ModuleNames<'a> {
    /// A module with the names of its ports.
    pub fn of(alloc: Global, source: &'a Module) -> Result<ModuleNames<'a>, NoMemory>
        ensures { IfOk result (λ names. names ≡ source.now) }
    {
        let keys = port_keys(alloc, source.ports.as_slice())?;
        let ports = NameTable::of(alloc, keys)?;
        Ok(ModuleNames { source, ports })
    }

    /// Its ports, in the text's order.
    pub fn ports(&self) -> &'a [ModulePort]
        ensures { result.now ≡ self.now.ports }
    {
        self.source.ports.as_slice()
    }

    /// The first port of a name.
    #[tactic(auto, using(crate::proofs::Found::port_found))]
    pub fn find(&self, name: &'a Name) -> Option<&'a ModulePort>
        ensures { option_copied result ≡ find_port name.now self.now.ports }
    {
        at(
            self.source.ports.as_slice(),
            self.ports.find(&name_key(name)),
        )
    }
}

fn port_keys<'a>(alloc: Global, ports: &'a [ModulePort]) -> Result<List<Key<'a>>, NoMemory>
    ensures { IfOk result (λ keys. map label_of keys ≡ map port_label ports.now) }
{
    let mut keys = List::new(alloc);
    for port in ports {
        keys.add(name_key(&port.name))?;
    }
    Ok(keys)
}

/// The modules of a design, found by name. Contracts see the list of the modules.
#[derive(Drop)]
pub struct Modules<'a> {
    modules: List<ModuleNames<'a>>,
    names: NameTable<'a>,
}

impl<'a> Model for Modules<'a> {
    ghost use Rattle.std.specs.Prelude.{◌≡◌, map, List as Listed};
    ghost use Rattle.design_tree.specs.declared.declarations.Module.{Module};
    ghost use Rattle.channel_types.specs.contracts.esi_type.EsiType as ty;
    ghost use Rattle.design_tree.specs.contracts.expression.Expression as expression;
    ghost use Rattle.std.specs.Coded.{codes};
    ghost use Rattle.design_scopes.specs.Tables.{module_label};

    ghost Value = { Listed Module };

    ghost coded = { Prim.hlevel (codes, ty.the_row.coded, expression.the_row.coded) };

    ghost view = { λ t. t.modules };

    ghost invariant = { λ t. t.names ≡ map module_label t.modules };
}

impl<'a> Modules<'a> {
    /// The modules among some declarations.
    pub fn of(alloc: Global, declarations: &'a [Declaration]) -> Result<Modules<'a>, NoMemory>
        ensures { IfOk result (λ table. table ≡ modules_of declarations.now) }
    {
        let mut modules = List::new(alloc);
        let mut keys = List::new(alloc);
        for declaration in declarations {
            add_if_module(alloc, &mut modules, &mut keys, declaration)?;
        }
        let names = NameTable::of(alloc, keys)?;
        Ok(Modules { modules, names })
    }

    /// The first module of a name among so many first ones.
    #[tactic(auto, using(crate::proofs::Found::module_found))]
    pub fn find(&self, name: &'a Name, before: usize) -> Option<&ModuleNames<'a>>
        ensures { option_copied result ≡ find_module name.now (take before self.now) }
    {
        at_below(
            self.modules.as_slice(),
            before,
            self.names.find(&name_key(name)),
        )
    }
}

/// Adds the declaration and its name, if it is a module.
fn add_if_module<'a>(
    alloc: Global,
    modules: &mut List<ModuleNames<'a>>,
    keys: &mut List<Key<'a>>,
    declaration: &'a Declaration,
) -> Result<(), NoMemory>
    ensures modules { OnOk result (modules.new ≡ modules.old ++ module_in declaration.now) }
    ensures keys { OnOk result (map label_of keys.new ≡ map label_of keys.old ++ map module_label (module_in declaration.now)) }
{
    match declaration {
        Declaration::Module(source) => {
            modules.add(ModuleNames::of(alloc, source)?)?;
            keys.add(name_key(&source.name))
        }
        Declaration::Bundle(_) | Declaration::Service(_) => Ok(()),
    }
}
