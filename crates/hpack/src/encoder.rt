//! The encoder of the header blocks for a peer.
ghost use Rattle.std.specs.Prelude.{◌≡◌, ◌≤◌, ◌++◌, IsTrue, IfOk, OnOk, OnErr, min};
ghost use Rattle.hpack.specs.Tables.{list_size};
ghost use Rattle.hpack.specs.Blocks.{IsBlock};
ghost use Rattle.hpack.specs.Extends.{Extends};
ghost use Rattle.hpack.specs.declared.limits.TheConstants.{MAX_TABLE_SIZE};
ghost use Rattle.hpack.specs.Encoding.{AreTexts, new_writing, with_peer_limit, encoded_block, writing_after, IsTold};

use crate::dynamic_table::DynamicTable;
use crate::fields::{write_fields, write_known, write_size};
use crate::header::{Header, Headers};
use crate::limits::{MAX_HEADER_LIST_SIZE, MAX_TABLE_SIZE};
use esi_base::{NoMemory, Octets};
use std::alloc::Global;
use std::marker::Model;

/// Writes the header blocks of one direction of a connection, in order. Contracts see its table, which
/// is the peer's too, and what it has still to tell of the maximum sizes that the peer allowed.
#[derive(Debug, Drop)]
pub struct Encoder {
    alloc: Global,
    table: DynamicTable,
    least: usize,
    last: usize,
}

impl Model for Encoder {
    ghost use Rattle.hpack.specs.Encoding.{Writing, IsWriting};

    ghost Value = { Writing };

    ghost view = { λ e. record { table = e.table; least = e.least; last = e.last } };

    ghost invariant = { λ e. IsWriting (record { table = e.table; least = e.least; last = e.last }) };
}

impl Encoder {
    /// An encoder that has written no block.
    #[tactic(auto, using(crate::proofs::BlockBack::new_kept))]
    pub fn new(alloc: Global) -> Result<Encoder, NoMemory>
        ensures { IfOk result (λ encoder. encoder ≡ new_writing) }
    {
        Ok(Encoder {
            alloc,
            table: DynamicTable::new(alloc),
            least: MAX_TABLE_SIZE,
            last: MAX_TABLE_SIZE,
        })
    }

    /// Takes the maximum size of the table that the peer allows (SETTINGS_HEADER_TABLE_SIZE). The next
    /// block tells the peer what changes by it. It takes no memory.
    pub fn limit(&mut self, peer: u32)
        ensures { self.new ≡ with_peer_limit peer self.old }
    {
        let allowed = (peer as usize).min(MAX_TABLE_SIZE);
        self.least = self.least.min(allowed);
        self.last = allowed;
    }

    /// Adds at the end of `out` the block of headers. It fails only when it runs out of memory, and then
    /// leaves the encoder and `out` as they were.
    pub fn block(&mut self, headers: &Headers, out: &mut Octets) -> Result<(), NoMemory>
        requires { list_size headers.now ≤ MAX_HEADER_LIST_SIZE }
        ensures written { OnOk result (out.new ≡ out.old ++ encoded_block self.old headers.now) }
        ensures after { OnOk result (self.new ≡ writing_after self.old headers.now) }
        // What it adds is read back as the same headers, and leaves the peer's table as the encoder's.
        ensures read_back { AreTexts headers.now → IsBlock self.old.table (encoded_block self.old headers.now)
            headers.now (writing_after self.old headers.now).table }
        ensures unchanged { OnErr result ((out.new ≡ out.old) × (self.new ≡ self.old)) }
    {
        let _ = &self.alloc;
        if !self.is_told() {
            return self.changing_block(headers.as_slice(), out);
        }
        let end = out.len();
        match self.told_block(headers.as_slice(), out) {
            Ok(()) => Ok(()),
            Err(NoMemory) => {
                out.truncate(end);
                Err(NoMemory)
            }
        }
    }

    /// Whether the peer has been told the maximum size, which is the table's.
    fn is_told(&self) -> bool
        ensures { IsTrue result → IsTold self.now }
    {
        let limit = self.table.limit();
        self.least == limit && self.last == limit
    }

    /// Adds a block before which nothing is to be told. The table is copied only where a field is no entry.
    #[tactic(auto, using(crate::proofs::IndexLaws::all_known, crate::proofs::IndexLaws::all_stays, crate::proofs::IndexLaws::rest_known, crate::proofs::IndexLaws::rest_stays))]
    fn told_block(&mut self, headers: &[Header], out: &mut Octets) -> Result<(), NoMemory>
        requires told { IsTold self.old }
        requires small { list_size headers.now ≤ MAX_HEADER_LIST_SIZE }
        ensures written { OnOk result (out.new ≡ out.old ++ encoded_block self.old headers.now) }
        ensures after { OnOk result (self.new ≡ writing_after self.old headers.now) }
        ensures extends { OnErr result (Extends out.old out.new) }
        ensures unchanged { OnErr result (self.new ≡ self.old) }
    {
        let known = write_known(&self.table, headers, out)?;
        if known == headers.len() {
            return Ok(());
        }
        self.changing_block(&headers[known..], out)
    }

    /// Adds a block by a table that may change, of which a copy is kept until the block is written.
    fn changing_block(&mut self, headers: &[Header], out: &mut Octets) -> Result<(), NoMemory>
        requires { list_size headers.now ≤ MAX_HEADER_LIST_SIZE }
        ensures written { OnOk result (out.new ≡ out.old ++ encoded_block self.old headers.now) }
        ensures after { OnOk result (self.new ≡ writing_after self.old headers.now) }
        ensures unchanged { OnErr result ((out.new ≡ out.old) × (self.new ≡ self.old)) }
    {
        let end = out.len();
        let saved = self.table.copied(self.alloc)?;
        match write_block(
            self.alloc,
            self.least,
            self.last,
            &mut self.table,
            headers,
            out,
        ) {
            Ok(()) => {
                self.least = self.table.limit();
                self.last = self.table.limit();
                Ok(())
            }
            Err(NoMemory) => {
                out.truncate(end);
                self.table = saved;
                Err(NoMemory)
            }
        }
    }
}

/// Writes a block, by the table as it is before it, which becomes the one after it.
fn write_block(
    alloc: Global,
    least: usize,
    last: usize,
    table: &mut DynamicTable,
    headers: &[Header],
    out: &mut Octets,
) -> Result<(), NoMemory>
    requires least_small { least ≤ MAX_TABLE_SIZE }
    requires last_small { last ≤ MAX_TABLE_SIZE }
    requires list_small { list_size headers.now ≤ MAX_HEADER_LIST_SIZE }
    ensures written { OnOk result (out.new ≡ out.old
        ++ encoded_block (record { table = table.old; least = least; last = last }) headers.now) }
    ensures after { OnOk result (table.new
        ≡ (writing_after (record { table = table.old; least = least; last = last }) headers.now).table) }
    ensures extends { OnErr result (Extends out.old out.new) }
{
    write_size(least, table, out)?;
    write_size(last, table, out)?;
    write_fields(alloc, table, headers, out)
}
