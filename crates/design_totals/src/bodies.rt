//! What each body of a design has, in the order of its text.
ghost use Rattle.std.specs.Prelude.{◌≡◌, ◌++◌, [], map, IfOk, OnOk};
ghost use Rattle.name_tables.specs.Keys.{label_of};
ghost use Rattle.check_rules.specs.Scopes.{module_in, modules_of};
ghost use Rattle.design_scopes.specs.Tables.{module_label};
ghost use Rattle.design_totals.specs.Capped.{capped_bodies, last_of};

use crate::capped::{CappedTotals, nothing_yet};
use crate::statements::body_totals;
use check_rules::keys::name_key;
use design_scopes::body::Body;
use design_scopes::declared::Declared;
use design_tree::Declaration;
use esi_base::{List, NoMemory};
use name_tables::{Key, NameTable};
use std::alloc::Global;

/// What the last of some bodies has, where an instance has what the body of its module has, which stands
/// before it.
pub fn last_totals<'a>(
    alloc: Global,
    declared: &Declared<'a>,
    modules: &NameTable<'a>,
    bodies: &[Body<'a>],
) -> Result<CappedTotals, NoMemory>
    ensures { IfOk result (λ totals. totals ≡ last_of (capped_bodies declared.now modules.now [] bodies.now)) }
{
    let known = totals_of_each(alloc, declared, modules, bodies)?;
    Ok(last_among(known.as_slice()))
}

/// What each of some bodies has.
fn totals_of_each<'a>(
    alloc: Global,
    declared: &Declared<'a>,
    modules: &NameTable<'a>,
    bodies: &[Body<'a>],
) -> Result<List<CappedTotals>, NoMemory>
    ensures { IfOk result (λ known. known ≡ capped_bodies declared.now modules.now [] bodies.now) }
{
    let mut known = List::new(alloc);
    for body in bodies {
        let totals = body_totals(declared, modules, known.as_slice(), body);
        known.add(totals)?;
    }
    Ok(known)
}

/// The last ones of some totals.
fn last_among(known: &[CappedTotals]) -> CappedTotals
    ensures { result ≡ last_of known.now }
{
    match known.last() {
        None => nothing_yet(),
        Some(totals) => *totals,
    }
}

/// The names of the modules among some declarations.
pub fn module_table<'a>(
    alloc: Global,
    declarations: &'a [Declaration],
) -> Result<NameTable<'a>, NoMemory>
    ensures { IfOk result (λ table. table ≡ map module_label (modules_of declarations.now)) }
{
    let mut keys = List::new(alloc);
    for declaration in declarations {
        add_if_module(&mut keys, declaration)?;
    }
    NameTable::of(alloc, keys)
}

/// Adds the name of the declaration, if it is a module.
fn add_if_module<'a>(keys: &mut List<Key<'a>>, declaration: &'a Declaration) -> Result<(), NoMemory>
    ensures { OnOk result (map label_of keys.new ≡ map label_of keys.old ++ map module_label (module_in declaration.now)) }
{
    match declaration {
        Declaration::Bundle(_) | Declaration::Service(_) => Ok(()),
        Declaration::Module(source) => keys.add(name_key(&source.name)),
    }
}
