//! The five representations of a header block (RFC 7541, section 6).
ghost use Rattle.std.specs.Prelude.{◌≡◌, ◌<◌, length, if◌then◌else◌, Err};
ghost use Rattle.esi_base.specs.Answers.{AnswersAs, Reads};
ghost use Rattle.hpack.specs.Representations.{representation_of};
ghost use Rattle.hpack.specs.Tables.{table_with};
ghost use Rattle.hpack.specs.RepresentationReading.{entry_at, indexed_at, entry_name_at, name_at, value_at, literal_at, listing_with, update_at, read_as, representation_at, is_empty};

use crate::dynamic_table::DynamicTable;
use crate::header::Header;
use crate::header_list::HeaderList;
use crate::integer::integer_at;
use crate::limits::{
    INDEXED_BITS, MAX_TABLE_SIZE, SIZE_UPDATE_BITS, STATIC_ENTRIES, WITH_INDEXING_BITS,
    WITHOUT_INDEXING_BITS,
};
use crate::static_table::static_entry;
use crate::stop::{BlockRule, HpackStop};
use crate::string::string_at;
use esi_base::{Octets, Stop};
use std::alloc::Global;

/// The kinds of representations, by the bits with which they begin.
#[derive(Clone, Copy, Debug, PartialEq, Eq)]
pub(crate) enum Representation {
    /// `1xxxxxxx`: an entry of the tables (section 6.1).
    Indexed,
    /// `01xxxxxx`: a literal that joins the table (section 6.2.1).
    WithIndexing,
    /// `0000xxxx`: a literal that does not join the table (section 6.2.2).
    WithoutIndexing,
    /// `0001xxxx`: a literal that never joins a table (section 6.2.3).
    NeverIndexed,
    /// `001xxxxx`: a new maximum size of the table (section 6.3).
    SizeUpdate,
}

impl Representation {
    /// The representation that begins with an octet.
    fn of(octet: u8) -> Representation
        ensures { result ≡ representation_of octet }
    {
        match octet {
            128.. => Representation::Indexed,
            64.. => Representation::WithIndexing,
            32.. => Representation::SizeUpdate,
            16.. => Representation::NeverIndexed,
            _ => Representation::WithoutIndexing,
        }
    }
}

/// Reads the representation at the front of octets, and gives the octets after it.
#[tactic(auto, unfolding(crate::specs::RepresentationReading::representation_at, crate::specs::RepresentationReading::read_as))]
pub(crate) fn representation_at<'a>(
    alloc: Global,
    list: &mut HeaderList,
    table: &mut DynamicTable,
    octets: &'a [u8],
) -> Result<&'a [u8], HpackStop>
    requires { 0 < length octets.now }
    ensures { AnswersAs (λ rest. (record { headers = list.new; table = table.new }, rest.now))
        (representation_at (record { headers = list.old; table = table.old }) octets.now) result }
{
    match Representation::of(octets[0]) {
        Representation::Indexed => field_at(alloc, list, table, octets),
        Representation::WithIndexing => joining_field_at(alloc, list, table, octets),
        Representation::WithoutIndexing => plain_field_at(alloc, list, table, octets),
        Representation::NeverIndexed => plain_field_at(alloc, list, table, octets),
        Representation::SizeUpdate => update_at(list, table, octets),
    }
}

/// An indexed field.
fn field_at<'a>(
    alloc: Global,
    list: &mut HeaderList,
    table: &DynamicTable,
    octets: &'a [u8],
) -> Result<&'a [u8], HpackStop>
    ensures { AnswersAs (λ rest. (record { headers = list.new; table = table.now }, rest.now))
        (listing_with (λ header. table.now) list.old (indexed_at table.now octets.now)) result }
{
    let (header, rest) = indexed_at(alloc, table, octets)?;
    list.push(header)?;
    Ok(rest)
}

/// A literal that joins the table.
fn joining_field_at<'a>(
    alloc: Global,
    list: &mut HeaderList,
    table: &mut DynamicTable,
    octets: &'a [u8],
) -> Result<&'a [u8], HpackStop>
    ensures { AnswersAs (λ rest. (record { headers = list.new; table = table.new }, rest.now))
        (listing_with (λ header. table_with header table.old) list.old
        (literal_at WITH_INDEXING_BITS table.old octets.now)) result }
{
    let (header, rest) = literal_at(alloc, WITH_INDEXING_BITS, table, octets)?;
    let entry = header.copied(alloc)?;
    list.push(header)?;
    table.insert(entry)?;
    Ok(rest)
}

/// A literal that does not join the table.
fn plain_field_at<'a>(
    alloc: Global,
    list: &mut HeaderList,
    table: &DynamicTable,
    octets: &'a [u8],
) -> Result<&'a [u8], HpackStop>
    ensures { AnswersAs (λ rest. (record { headers = list.new; table = table.now }, rest.now))
        (listing_with (λ header. table.now) list.old (literal_at WITHOUT_INDEXING_BITS table.now octets.now)) result }
{
    let (header, rest) = literal_at(alloc, WITHOUT_INDEXING_BITS, table, octets)?;
    list.push(header)?;
    Ok(rest)
}

/// A size update, which stands before all fields.
#[tactic(auto, unfolding(crate::specs::RepresentationReading::update_at))]
fn update_at<'a>(
    list: &HeaderList,
    table: &mut DynamicTable,
    octets: &'a [u8],
) -> Result<&'a [u8], HpackStop>
    ensures { AnswersAs (λ rest. (record { headers = list.now; table = table.new }, rest.now))
        (if is_empty list.now then update_at table.old octets.now else Err BlockRule.WrongSizeUpdate) result }
{
    if !list.is_empty() {
        return Err(Stop::Refused(BlockRule::WrongSizeUpdate));
    }
    let (limit, rest) = integer_at(SIZE_UPDATE_BITS, octets)?;
    if limit as usize > MAX_TABLE_SIZE {
        return Err(Stop::Refused(BlockRule::WrongSizeUpdate));
    }
    table.resize(limit as usize);
    Ok(rest)
}

#[tactic(auto, unfolding(crate::specs::RepresentationReading::indexed_at))]
fn indexed_at<'a>(
    alloc: Global,
    table: &DynamicTable,
    octets: &'a [u8],
) -> Result<(Header, &'a [u8]), HpackStop>
    ensures { AnswersAs (λ x. (x.0, x.1.now)) (indexed_at table.now octets.now) result }
{
    let (index, rest) = integer_at(INDEXED_BITS, octets)?;
    let header = entry_at(alloc, table, index)?;
    Ok((header, rest))
}

/// A literal, whose index has a prefix of so many bits.
#[tactic(auto, unfolding(crate::specs::RepresentationReading::literal_at))]
fn literal_at<'a>(
    alloc: Global,
    bits: u32,
    table: &DynamicTable,
    octets: &'a [u8],
) -> Result<(Header, &'a [u8]), HpackStop>
    requires { bits < 8 }
    ensures { AnswersAs (λ x. (x.0, x.1.now)) (literal_at bits table.now octets.now) result }
{
    let (index, rest) = integer_at(bits, octets)?;
    let (name, rest) = name_at(alloc, table, index, rest)?;
    value_at(alloc, name, rest)
}

#[tactic(auto, unfolding(crate::specs::RepresentationReading::name_at, crate::specs::RepresentationReading::entry_name_at))]
fn name_at<'a>(
    alloc: Global,
    table: &DynamicTable,
    index: u32,
    octets: &'a [u8],
) -> Result<(Octets, &'a [u8]), HpackStop>
    ensures { AnswersAs (λ x. (x.0, x.1.now)) (name_at table.now index octets.now) result }
{
    if index == 0 {
        return string_at(alloc, octets);
    }
    let header = entry_at(alloc, table, index)?;
    Ok((header.name, octets))
}

#[tactic(auto, unfolding(crate::specs::RepresentationReading::value_at))]
fn value_at(alloc: Global, name: Octets, octets: &[u8]) -> Result<(Header, &[u8]), HpackStop>
    ensures { AnswersAs (λ x. (x.0, x.1.now)) (value_at name octets.now) result }
{
    let (value, rest) = string_at(alloc, octets)?;
    Ok((Header { name, value }, rest))
}

/// A copy of the entry at an index: of the static table from 1 on, of the dynamic one after it.
#[tactic(auto, unfolding(crate::specs::RepresentationReading::entry_at))]
fn entry_at(alloc: Global, table: &DynamicTable, index: u32) -> Result<Header, HpackStop>
    ensures { Reads (entry_at table.now index) result }
{
    if index == 0 {
        return Err(Stop::Refused(BlockRule::NoSuchEntry));
    }
    let at = index as usize - 1;
    if at < STATIC_ENTRIES {
        return Ok(static_entry(alloc, at)?);
    }
    match table.get(at - STATIC_ENTRIES) {
        Some(header) => Ok(header.copied(alloc)?),
        None => Err(Stop::Refused(BlockRule::NoSuchEntry)),
    }
}
