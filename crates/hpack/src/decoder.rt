//! The decoder of the header blocks that a peer sends.
ghost use Rattle.std.specs.Prelude.{◌≡◌, ◌≤◌, ◌⊎◌, None, Ok, List as Listed, IfOk, IfNone, IfSome, IsErrOf};
ghost use Rattle.hpack.specs.declared.header.Header.{Header};
ghost use Rattle.hpack.specs.Tables.{Table, list_size};
ghost use Rattle.hpack.specs.Blocks.{IsBlock, BreaksBlock};
ghost use Rattle.hpack.specs.Decoding.{new_decoding, failure};
ghost use Rattle.esi_base.specs.Answers.{AnswersAs, ReadsAs};
ghost use Rattle.esi_base.specs.declared.stop.Stop.TheVariants.{Refused, NoMemory as OutOfMemory};
ghost use Rattle.hpack.specs.BlockReading.{block_at, to_end};

use crate::dynamic_table::DynamicTable;
use crate::header::Headers;
use crate::header_list::HeaderList;
use crate::limits::MAX_HEADER_LIST_SIZE;
use crate::representation::representation_at;
use crate::stop::{BlockRule, HpackStop};
use esi_base::NoMemory;
use std::alloc::Global;
use std::marker::Model;

/// Reads the header blocks of one direction of a connection, in order. Contracts see its dynamic table,
/// and why it failed, if it did.
#[derive(Debug, Drop)]
pub struct Decoder {
    alloc: Global,
    table: DynamicTable,
    failed: Option<HpackStop>,
}

impl Model for Decoder {
    ghost use Rattle.hpack.specs.Decoding.{Decoding};

    ghost Value = { Decoding };

    ghost view = { λ d. record { table = d.table; failed = d.failed } };
}

impl Decoder {
    /// A decoder with a table without entries, of a maximum size of `MAX_TABLE_SIZE`.
    pub fn new(alloc: Global) -> Result<Decoder, NoMemory>
        ensures { IfOk result (λ decoder. decoder ≡ new_decoding) }
    {
        Ok(Decoder {
            alloc,
            table: DynamicTable::new(alloc),
            failed: None,
        })
    }

    /// The headers of a block, in order, of a size of at most `MAX_HEADER_LIST_SIZE`. The block is one
    /// whole header block, whatever frames it came in; each block has to be read, wanted or not, since
    /// it changes the table. After a refusal, or out of memory, each later call answers the same.
    pub fn block(&mut self, block: &[u8]) -> Result<Headers, HpackStop>
        // A decoder that has failed answers the same.
        ensures failed { IfSome self.old.failed (λ stop.
            (result ≡ Err stop) × (self.new ≡ self.old)) }

        // It reads exactly the header blocks whose list is small enough, and has the table after.
        ensures found { IfNone self.old.failed (IfOk result (λ headers.
            IsBlock self.old.table block.now headers self.new.table
            × (list_size headers ≤ MAX_HEADER_LIST_SIZE))) }
        ensures only { (headers : Listed Header) (after : Table) → self.old.failed ≡ None
            → IsBlock self.old.table block.now headers after → list_size headers ≤ MAX_HEADER_LIST_SIZE
            → ReadsAs (λ read. read) (Ok (headers, after)) result self.new.table }

        // It reports exactly the rule that the block breaks first.
        ensures refused { (rule : BlockRule) → self.old.failed ≡ None
            → IsErrOf result (Refused rule) → BreaksBlock rule self.old.table block.now }
        ensures refused_only { (rule : BlockRule) → self.old.failed ≡ None
            → BreaksBlock rule self.old.table block.now
            → IsErrOf result (Refused rule) ⊎ IsErrOf result OutOfMemory }

        // It keeps why it fails.
        ensures fails { IfNone self.old.failed (self.new.failed ≡ failure result) }

        // The answer is that of reading the block octet by octet.
        ensures exact { IfNone self.old.failed
            (AnswersAs (λ headers. record { headers = headers; table = self.new.table })
            (block_at self.old.table block.now) result) }
    {
        if let Some(stop) = self.failed {
            return Err(stop);
        }
        let read = read_block(self.alloc, &mut self.table, block);
        self.failed = failure(&read);
        read
    }
}

/// Why reading failed.
fn failure(read: &Result<Headers, HpackStop>) -> Option<HpackStop>
    ensures { result ≡ failure read.now }
{
    match read {
        Ok(_) => None,
        Err(stop) => Some(*stop),
    }
}

/// Reads a block with a table, which becomes the one after it.
#[tactic(auto, unfolding(crate::specs::BlockReading::block_at))]
fn read_block(alloc: Global, table: &mut DynamicTable, block: &[u8]) -> Result<Headers, HpackStop>
    ensures { AnswersAs (λ headers. record { headers = headers; table = table.new })
        (block_at table.old block.now) result }
{
    let mut list = HeaderList::new(alloc)?;
    read_to_end(alloc, &mut list, table, block)?;
    Ok(list.into_headers())
}

/// Reads representations to the end of octets.
fn read_to_end(
    alloc: Global,
    list: &mut HeaderList,
    table: &mut DynamicTable,
    octets: &[u8],
) -> Result<(), HpackStop>
    ensures { AnswersAs (λ _. record { headers = list.new; table = table.new })
        (to_end (record { headers = list.old; table = table.old }) octets.now) result }
{
    let mut rest = octets;
    while !rest.is_empty() {
        match representation_at(alloc, list, table, rest) {
            Ok(after) => rest = after,
            Err(stop) => return Err(stop),
        }
    }
    Ok(())
}
