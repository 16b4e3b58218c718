//! The dynamic table of a decoder, in plain code: all entries that were ever added, and how many of the
//! newest are left.

use crate::header_lists;
use esi_base::{List, NoMemory};
use hpack::{Decoder, Header, Headers};
use std::alloc::Global;

/// What each entry counts beside its name and value.
const OVERHEAD: usize = 32;

/// A table of a maximum size.
#[derive(Drop)]
pub struct TableModel {
    added: Headers,
    left: usize,
    limit: usize,
}

impl TableModel {
    /// The table with which a connection begins.
    pub fn new(alloc: Global) -> TableModel {
        TableModel {
            added: List::new(alloc),
            left: 0,
            limit: 4_096,
        }
    }

    /// How many entries are left.
    pub fn len(&self) -> usize {
        self.left
    }

    /// The entry at an index, which counts from 0 at the newest.
    pub fn get(&self, at: usize) -> Option<&Header> {
        if at < self.left {
            self.added
                .get(self.added.len().saturating_sub(at.saturating_add(1)))
        } else {
            None
        }
    }

    /// Adds an entry, and lets go what no longer fits.
    pub fn insert(&mut self, alloc: Global, header: &Header) -> Result<(), NoMemory> {
        let entry = header_lists::header(alloc, header.name.as_slice(), header.value.as_slice())?;
        self.added.add(entry)?;
        self.left = self.left.saturating_add(1);
        self.evict();
        Ok(())
    }

    /// Sets the maximum size, and lets go what no longer fits.
    pub fn resize(&mut self, limit: usize) {
        self.limit = limit;
        self.evict();
    }

    /// Counts the newest entries that fit.
    fn evict(&mut self) {
        let mut room = self.limit;
        let mut fitting: usize = 0;
        for header in self.added.as_slice().iter().rev() {
            let size = header
                .name
                .len()
                .saturating_add(header.value.len())
                .saturating_add(OVERHEAD);
            if fitting >= self.left || size > room {
                break;
            }
            room = room.saturating_sub(size);
            fitting = fitting.saturating_add(1);
        }
        self.left = fitting;
    }
}

/// The entry of the static table at an index from 1 to 61, as a decoder has it.
pub fn static_entry(alloc: Global, index: u8) -> Result<Option<Header>, NoMemory> {
    let mut decoder = Decoder::new(alloc)?;
    let Ok(headers) = decoder.block(&[index | 0x80]) else {
        return Ok(None);
    };
    match headers.as_slice() {
        [header] => {
            let entry = header_lists::header(
                alloc,
                header.name.as_slice(),
                header.value.as_slice(),
            )?;
            Ok(Some(entry))
        }
        _ => Ok(None),
    }
}
