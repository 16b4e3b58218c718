//! Where each of some names stands first.
ghost use Rattle.std.specs.Prelude.{◌≡◌, ◌+◌, ◌<◌, IfOk, OnOk, map, length, take};
ghost use Rattle.name_tables.specs.Labels.{Label};
ghost use Rattle.name_tables.specs.Lists.{index_in, stands};
ghost use Rattle.name_tables.specs.Keys.{label_of};
ghost use Rattle.name_tables.specs.Tables.{IsTable};

use crate::key::Key;
use esi_base::{List, NoMemory};
use std::alloc::Global;
use std::collections::BTreeMap;
use std::marker::Model;

/// Names, of which each is found with the index at which it stands first. Contracts see the list of the
/// names.
#[derive(Drop)]
pub struct NameTable<'a> {
    names: List<Key<'a>>,
    indices: BTreeMap<Key<'a>, usize>,
}

impl<'a> Model for NameTable<'a> {
    ghost use Rattle.std.specs.Prelude.{List as Listed, map};
    ghost use Rattle.name_tables.specs.Labels.{Label};
    ghost use Rattle.name_tables.specs.Keys.{label_of};
    ghost use Rattle.name_tables.specs.Tables.{IsTable};

    ghost Value = { Listed Label };

    ghost view = { λ t. map label_of t.names };

    ghost invariant = { λ t. IsTable t.indices t.names };
}

impl<'a> NameTable<'a> {
    /// The table of some names. It takes time in n log n.
    pub fn of(alloc: Global, names: List<Key<'a>>) -> Result<NameTable<'a>, NoMemory>
        ensures { IfOk result (λ table. table ≡ map label_of names.entry) }
    {
        let indices = indices_of(alloc, names.as_slice())?;
        Ok(NameTable { names, indices })
    }

    /// The index at which the name stands first; None exactly where it is none of the names.
    pub fn find(&self, name: &Key<'a>) -> Option<usize>
        ensures { result ≡ index_in (label_of name.now) self.now }
    {
        self.indices.get(name).copied()
    }

    /// Whether it is one of the names.
    #[tactic(auto, using(crate::specs::ListLaws::found_stands))]
    pub fn contains(&self, name: &Key<'a>) -> bool
        ensures { result ≡ stands (label_of name.now) self.now }
    {
        self.find(name).is_some()
    }
}

/// The index at which each of the names stands first.
fn indices_of<'a>(alloc: Global, names: &[Key<'a>]) -> Result<BTreeMap<Key<'a>, usize>, NoMemory>
    ensures { IfOk result (λ indices. IsTable indices names.now) }
{
    let mut indices = BTreeMap::new(alloc);
    for index in 0..names.len() {
        note_next(&mut indices, names, index)?;
    }
    Ok(indices)
}

/// Notes the name at an index, unless it stood before.
fn note_next<'a>(
    indices: &mut BTreeMap<Key<'a>, usize>,
    names: &[Key<'a>],
    index: usize,
) -> Result<(), NoMemory>
    requires there { index < length names.now }
    requires before { IsTable indices.old (take index names.now) }
    ensures { OnOk result (IsTable indices.new (take (index + 1) names.now)) }
{
    let name = names[index];
    if !indices.contains_key(&name) {
        indices.insert(name, index)?;
    }
    Ok(())
}
