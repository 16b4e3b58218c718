//! The modules of a design, found by name.
ghost use Rattle.std.specs.Prelude.{◌≡◌, ◌<◌, ◌++◌, map, take, IfOk, OnOk, IfSome};
ghost use Rattle.name_tables.specs.Keys.{label_of};
ghost use Rattle.check_rules.specs.Scopes.{module_in, modules_of};
ghost use Rattle.reached_requests.specs.Requests.{known_of, requests_in};
ghost use Rattle.reached_requests.specs.Modules.{referred, module_label, requests_of_found};

use check_rules::keys::name_key;
use design_tree::{Declaration, Module, Name};
use esi_base::{List, NoMemory};
use name_tables::{Key, NameTable};
use std::alloc::Global;

/// The modules of a design, with their names.
#[derive(Drop)]
pub struct Modules<'a> {
    /// The modules, in the text's order.
    pub sources: List<&'a Module>,
    names: NameTable<'a>,
    ghost named: { names ≡ map module_label (referred sources) },
}

impl<'a> Modules<'a> {
    /// The modules among some declarations.
    pub fn of(alloc: Global, declarations: &'a [Declaration]) -> Result<Modules<'a>, NoMemory>
        ensures { IfOk result (λ modules. referred modules.sources ≡ modules_of declarations.now) }
    {
        let mut sources = List::new(alloc);
        let mut keys = List::new(alloc);
        for declaration in declarations {
            add_if_module(&mut sources, &mut keys, declaration)?;
        }
        let names = NameTable::of(alloc, keys)?;
        Ok(Modules { sources, names })
    }

    /// The first module of a name, with its number, if that is below `levels`.
    pub fn find(&self, name: &'a Name, levels: usize) -> Option<(usize, &'a Module)>
        ensures below { IfSome result (λ found. found.0 < levels) }
        ensures requests { requests_of_found (known_of (referred self.now.sources)) result ≡ requests_in name.now (take levels (known_of (referred self.now.sources))) }
    {
        match self.names.find(&name_key(name)) {
            Some(number) if number < levels => match self.sources.get(number) {
                Some(source) => Some((number, *source)),
                None => None,
            },
            _ => None,
        }
    }
}

/// Adds the declaration and its name, if it is a module.
fn add_if_module<'a>(
    sources: &mut List<&'a Module>,
    keys: &mut List<Key<'a>>,
    declaration: &'a Declaration,
) -> Result<(), NoMemory>
    ensures sources { OnOk result (referred sources.new ≡ referred sources.old ++ module_in declaration.now) }
    ensures keys { OnOk result (map label_of keys.new ≡ map label_of keys.old ++ map module_label (module_in declaration.now)) }
{
    match declaration {
        Declaration::Bundle(_) | Declaration::Service(_) => Ok(()),
        Declaration::Module(source) => {
            sources.add(source)?;
            keys.add(name_key(&source.name))
        }
    }
}
