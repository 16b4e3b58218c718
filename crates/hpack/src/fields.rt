//! Fields and size updates, as an encoder writes them.
ghost use Rattle.std.specs.Prelude.{◌≡◌, ◌<◌, ◌≤◌, ◌^◌, ◌+◌, ◌++◌, Option, IfOk, OnOk, OnErr};
ghost use Rattle.hpack.specs.Tables.{size_of, list_size};
ghost use Rattle.hpack.specs.Extends.{Extends};
ghost use Rattle.hpack.specs.Known.{AreKnown};
ghost use Rattle.hpack.specs.declared.limits.TheConstants.{MAX_TABLE_SIZE};
ghost use Rattle.hpack.specs.Integers.{full_prefix};
ghost use Rattle.hpack.specs.Encoding.{literal, new_field, encoded_field, table_with_field, table_joined, encoded_fields, table_with_fields, size_update, table_sized};

use crate::dynamic_table::DynamicTable;
use crate::header::Header;
use crate::limits::{
    INDEXED_BITS, INDEXED_MARK, MAX_HEADER_LIST_SIZE, SIZE_UPDATE_BITS, SIZE_UPDATE_MARK,
    WITH_INDEXING_BITS, WITH_INDEXING_MARK, WITHOUT_INDEXING_BITS, WITHOUT_INDEXING_MARK,
};
use crate::sought::{Sought, index_of};
use crate::writing::{write_marked, write_text};
use esi_base::{NoMemory, Octets};
use std::alloc::Global;

/// A literal whose name has an index, or none (section 6.2).
fn write_literal(
    mark: u8,
    bits: u32,
    index: Option<u32>,
    header: &Header,
    out: &mut Octets,
) -> Result<(), NoMemory>
    requires narrow { bits < 8 }
    requires room { mark + full_prefix bits < 2 ^ 8 }
    requires small { size_of header.now ≤ MAX_HEADER_LIST_SIZE }
    ensures written { OnOk result (out.new ≡ out.old ++ literal mark bits index header.now) }
    ensures extends { OnErr result (Extends out.old out.new) }
{
    match index {
        Some(index) => {
            write_marked(mark, bits, index, out)?;
            write_text(header.value.as_slice(), out)
        }
        None => {
            write_marked(mark, bits, 0, out)?;
            write_text(header.name.as_slice(), out)?;
            write_text(header.value.as_slice(), out)
        }
    }
}

/// A field that is no entry: it joins the table where it fits into it.
fn write_new(table: &DynamicTable, header: &Header, out: &mut Octets) -> Result<(), NoMemory>
    requires { size_of header.now ≤ MAX_HEADER_LIST_SIZE }
    ensures written { OnOk result (out.new ≡ out.old ++ new_field table.now header.now) }
    ensures extends { OnErr result (Extends out.old out.new) }
{
    let named = index_of(table, Sought::Name, header);
    if header.fits(table.limit()) {
        write_literal(WITH_INDEXING_MARK, WITH_INDEXING_BITS, named, header, out)
    } else {
        write_literal(
            WITHOUT_INDEXING_MARK,
            WITHOUT_INDEXING_BITS,
            named,
            header,
            out,
        )
    }
}

/// A field, by the table as it is before it, which becomes the one after it.
#[tactic(auto, unfolding(crate::specs::Encoding::encoded_field, crate::specs::Encoding::table_with_field))]
fn write_field(
    alloc: Global,
    table: &mut DynamicTable,
    header: &Header,
    out: &mut Octets,
) -> Result<(), NoMemory>
    requires { size_of header.now ≤ MAX_HEADER_LIST_SIZE }
    ensures written { OnOk result (out.new ≡ out.old ++ encoded_field table.old header.now) }
    ensures after { OnOk result (table.new ≡ table_with_field table.old header.now) }
    ensures extends { OnErr result (Extends out.old out.new) }
{
    match index_of(table, Sought::Field, header) {
        Some(index) => write_marked(INDEXED_MARK, INDEXED_BITS, index, out),
        None => {
            write_new(table, header, out)?;
            join(alloc, table, header)
        }
    }
}

/// Adds the entry of a field that is none, where it fits into the table.
fn join(alloc: Global, table: &mut DynamicTable, header: &Header) -> Result<(), NoMemory>
    requires { size_of header.now ≤ MAX_HEADER_LIST_SIZE }
    ensures { OnOk result (table.new ≡ table_joined table.old header.now) }
{
    if header.fits(table.limit()) {
        table.insert(header.copied(alloc)?)
    } else {
        Ok(())
    }
}

/// Fields one after another.
pub(crate) fn write_fields(
    alloc: Global,
    table: &mut DynamicTable,
    headers: &[Header],
    out: &mut Octets,
) -> Result<(), NoMemory>
    requires { list_size headers.now ≤ MAX_HEADER_LIST_SIZE }
    ensures written { OnOk result (out.new ≡ out.old ++ encoded_fields table.old headers.now) }
    ensures after { OnOk result (table.new ≡ table_with_fields table.old headers.now) }
    ensures extends { OnErr result (Extends out.old out.new) }
{
    let mut rest = headers;
    while let [header, others @ ..] = rest {
        match write_field(alloc, table, header, out) {
            Ok(()) => rest = others,
            Err(NoMemory) => return Err(NoMemory),
        }
    }
    Ok(())
}

/// Writes fields from the front on as long as they are entries, and tells how many.
#[tactic(auto, using(crate::proofs::IndexLaws::known_none))]
pub(crate) fn write_known(
    table: &DynamicTable,
    headers: &[Header],
    out: &mut Octets,
) -> Result<usize, NoMemory>
    ensures known { IfOk result (λ known. AreKnown table.now headers.now known out.old out.new) }
    ensures extends { OnErr result (Extends out.old out.new) }
{
    for (known, header) in headers.iter().enumerate() {
        let Some(index) = index_of(table, Sought::Field, header) else {
            return Ok(known);
        };
        match write_marked(INDEXED_MARK, INDEXED_BITS, index, out) {
            Ok(()) => {}
            Err(NoMemory) => return Err(NoMemory),
        }
    }
    Ok(headers.len())
}

/// A size update where the maximum size differs, and the table after it (sections 4.2 and 6.3).
pub(crate) fn write_size(
    limit: usize,
    table: &mut DynamicTable,
    out: &mut Octets,
) -> Result<(), NoMemory>
    requires { limit ≤ MAX_TABLE_SIZE }
    ensures written { OnOk result (out.new ≡ out.old ++ size_update limit table.old) }
    ensures after { OnOk result (table.new ≡ table_sized limit table.old) }
    ensures extends { OnErr result (Extends out.old out.new) }
{
    if limit == table.limit() {
        return Ok(());
    }
    write_marked(SIZE_UPDATE_MARK, SIZE_UPDATE_BITS, limit as u32, out)?;
    table.resize(limit);
    Ok(())
}
