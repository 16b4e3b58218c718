//! Writing varints and spans.
ghost use Rattle.std.specs.Prelude.{◌≡◌, ℕ, ◌<◌, ◌≤◌, ◌^◌, ◌++◌, List as Listed, length, take, OnOk, OnErr};
ghost use Rattle.proto_wire.specs.declared.limit.TheConstants.{GREATEST_FIELD_NUMBER};
ghost use Rattle.proto_wire.specs.Fields.{IsFieldAt};
ghost use Rattle.proto_wire.specs.Written.{varint_of, IsShortestVarint, span_field, span_field_at};

use crate::limit::SPAN_TYPE;
use esi_base::{NoMemory, Octets};

/// Adds the varint of a number, in as few octets as can be. It fails only when it runs out of memory,
/// and then leaves the octets as they were.
pub fn write_varint(out: &mut Octets, value: u64) -> Result<(), NoMemory>
    ensures written { OnOk result (out.new ≡ out.old ++ varint_of value) }
    ensures unchanged { OnErr result (out.new ≡ out.old) }

    // Read again, the octets are that number, and no fewer octets are.
    ensures shortest { IsShortestVarint (varint_of value) value }
{
    let len = out.len();
    let written = push_varint(out, value);
    if written.is_err() {
        out.truncate(len);
    }
    written
}

/// Adds a span with a field number of 1 to `GREATEST_FIELD_NUMBER`: its key, the varint of how many
/// octets there are, and the octets. It fails only when it runs out of memory, and then leaves the
/// octets as they were.
pub fn write_span(out: &mut Octets, number: u32, octets: &[u8]) -> Result<(), NoMemory>
    requires least { 1 ≤ number }
    requires most { number ≤ GREATEST_FIELD_NUMBER }
    ensures written { OnOk result (out.new ≡ out.old ++ span_field number octets.now) }
    ensures unchanged { OnErr result (out.new ≡ out.old) }

    // Whatever follows, they are read again as that field with those octets.
    ensures read_again { OnOk result ((rest : Listed ℕ) → IsFieldAt (out.new ++ rest) (length out.old) (span_field_at (length out.old) number octets.now)) }
{
    let len = out.len();
    let written = push_span(out, number, octets);
    if written.is_err() {
        out.truncate(len);
    }
    written
}

/// Adds a varint, or a prefix of it when it runs out of memory.
fn push_varint(out: &mut Octets, value: u64) -> Result<(), NoMemory>
    ensures written { OnOk result (out.new ≡ out.old ++ varint_of value) }
    ensures front { take (length out.old) out.new ≡ out.old }
{
    let mut rest = value;
    while rest >= 128 {
        out.add((rest % 128) as u8 + 128)?;
        rest /= 128;
    }
    out.add(rest as u8)
}

/// Adds a span, or a prefix of it when it runs out of memory.
fn push_span(out: &mut Octets, number: u32, octets: &[u8]) -> Result<(), NoMemory>
    requires least { 1 ≤ number }
    requires most { number ≤ GREATEST_FIELD_NUMBER }
    ensures written { OnOk result (out.new ≡ out.old ++ span_field number octets.now) }
    ensures front { take (length out.old) out.new ≡ out.old }
    ensures small { length octets.now < 2 ^ 64 }
{
    push_varint(out, 8 * u64::from(number) + SPAN_TYPE)?;
    push_varint(out, octets.len() as u64)?;
    out.push_all(octets)?;
    Ok(())
}
