//! The dynamic table (RFC 7541, sections 2.3.2 and 4).
ghost use Rattle.std.specs.Prelude.{◌≡◌, ◌<◌, ◌≤◌, ◌+◌, IfOk, OnOk, length, slice_get};
ghost use Rattle.std.specs.Option.{option_copied};
ghost use Rattle.hpack.specs.Encoding.{first_index};
ghost use Rattle.hpack.specs.Sought.{passes};
ghost use Rattle.hpack.specs.Tables.{size_of, list_size, fitting, table_with, table_limited, new_table};

use crate::header::Header;
use crate::limits::{MAX_HEADER_LIST_SIZE, MAX_TABLE_SIZE, STATIC_ENTRIES};
use crate::sought::Sought;
use esi_base::NoMemory;
use std::alloc::Global;
use std::collections::VecDeque;
use std::marker::Model;

/// The entries that literals with indexing added, the newest first, as many as the maximum size lets
/// stay.
#[derive(Debug, Drop)]
pub(crate) struct DynamicTable {
    entries: VecDeque<Header>,
    size: usize,
    limit: usize,
}

impl Model for DynamicTable {
    ghost use Rattle.hpack.specs.Tables.{Table, IsCounted};

    ghost Value = { Table };

    ghost view = { λ t. record { entries = t.entries.items; limit = t.limit } };

    ghost invariant = { λ t. IsCounted t.entries.items t.size t.limit };
}

impl DynamicTable {
    /// A table without entries.
    pub(crate) fn new(alloc: Global) -> DynamicTable
        ensures { result ≡ new_table }
    {
        DynamicTable {
            entries: VecDeque::new(alloc),
            size: 0,
            limit: MAX_TABLE_SIZE,
        }
    }

    /// The entry at an index, which counts from 0 at the newest.
    pub(crate) fn get(&self, at: usize) -> Option<&Header>
        ensures { option_copied result ≡ slice_get self.now.entries at }
    {
        self.entries.get(at)
    }

    /// The least index of an entry that has what is sought, after those of the static table.
    pub(crate) fn index_of(&self, sought: Sought, header: &Header) -> Option<u32>
        ensures { result ≡ first_index (passes sought header.now) (STATIC_ENTRIES + 1) self.now.entries }
    {
        for at in 0..self.count() {
            let Some(entry) = self.get(at) else {
                return None;
            };
            if sought.is_in(header, entry.name.as_slice(), entry.value.as_slice()) {
                return Some((STATIC_ENTRIES + 1 + at) as u32);
            }
        }
        None
    }

    /// How many entries there are: each counts for its size.
    #[tactic(auto, using(crate::proofs::IndexLaws::few_entries))]
    fn count(&self) -> usize
        ensures all { result ≡ length self.now.entries }
        ensures small { result ≤ MAX_TABLE_SIZE }
    {
        self.entries.len()
    }

    /// The maximum size.
    pub(crate) fn limit(&self) -> usize
        ensures { result ≡ self.now.limit }
    {
        self.limit
    }

    /// A copy of the table.
    pub(crate) fn copied(&self, alloc: Global) -> Result<DynamicTable, NoMemory>
        ensures { IfOk result (λ table. table ≡ self.now) }
    {
        Ok(DynamicTable {
            entries: copy_of(alloc, &self.entries)?,
            size: self.size,
            limit: self.limit,
        })
    }

    /// Adds an entry and evicts the oldest ones (RFC 7541, section 4.4).
    pub(crate) fn insert(&mut self, header: Header) -> Result<(), NoMemory>
        requires { size_of header ≤ MAX_HEADER_LIST_SIZE }
        ensures { OnOk result (self.new ≡ table_with header self.old) }
    {
        let size = self.size + header.size();
        self.entries.push_front(header)?;
        self.size = evict(&mut self.entries, size, self.limit);
        Ok(())
    }

    /// Sets the maximum size and evicts the oldest entries (RFC 7541, section 4.3).
    pub(crate) fn resize(&mut self, limit: usize)
        requires { limit ≤ MAX_TABLE_SIZE }
        ensures { self.new ≡ table_limited limit self.old }
    {
        self.limit = limit;
        self.size = evict(&mut self.entries, self.size, limit);
    }
}

/// Takes the oldest entries out until the size is at most the limit, and gives the size after that.
fn evict(entries: &mut VecDeque<Header>, before: usize, limit: usize) -> usize
    requires { before ≡ list_size entries.old.items }
    ensures entries { entries.new.items ≡ fitting limit entries.old.items }
    ensures size { result ≡ list_size entries.new.items }
    ensures small { result ≤ limit }
{
    let mut size = before;
    while size > limit {
        let Some(oldest) = entries.pop_back() else {
            return 0;
        };
        size -= oldest.size();
    }
    size
}

/// A copy of the entries.
fn copy_of(alloc: Global, entries: &VecDeque<Header>) -> Result<VecDeque<Header>, NoMemory>
    ensures { IfOk result (λ copy. copy.items ≡ entries.now.items) }
{
    let mut copy = VecDeque::new(alloc);
    for at in 0..entries.len() {
        if let Some(entry) = entries.get(at) {
            copy.push_back(entry.copied(alloc)?)?;
        }
    }
    Ok(copy)
}
