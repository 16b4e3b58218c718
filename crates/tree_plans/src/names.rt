//! The names of the modules of a design.
ghost use Rattle.std.specs.Prelude.{◌≡◌, ◌++◌, map, IfOk, OnOk};
ghost use Rattle.name_tables.specs.Keys.{label_of};
ghost use Rattle.check_rules.specs.Scopes.{module_in, modules_of};
ghost use Rattle.design_scopes.specs.Tables.{module_label};

use check_rules::keys::name_key;
use design_tree::Declaration;
use esi_base::{List, NoMemory};
use name_tables::{Key, NameTable};
use std::alloc::Global;

/// The names of the modules among some declarations, in the text's order.
pub(crate) fn module_table<'a>(
    alloc: Global,
    declarations: &'a [Declaration],
) -> Result<NameTable<'a>, NoMemory>
    ensures { IfOk result (λ table. table ≡ map module_label (modules_of declarations.now)) }
{
    let mut keys = List::new(alloc);
    for declaration in declarations {
        add_if_module(&mut keys, declaration)?;
    }
    NameTable::of(alloc, keys)
}

/// Adds the name of the declaration, if it is a module.
fn add_if_module<'a>(keys: &mut List<Key<'a>>, declaration: &'a Declaration) -> Result<(), NoMemory>
    ensures { OnOk result (map label_of keys.new ≡ map label_of keys.old ++ map module_label (module_in declaration.now)) }
{
    match declaration {
        Declaration::Bundle(_) | Declaration::Service(_) => Ok(()),
        Declaration::Module(source) => keys.add(name_key(&source.name)),
    }
}
