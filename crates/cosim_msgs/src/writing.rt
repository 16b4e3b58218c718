//! Writing the fields of messages.
ghost use Rattle.std.specs.Prelude.{◌≡◌, ◌+◌, ◌*◌, ◌<◌, ◌≤◌, ◌^◌, ◌++◌, length, take, OnOk, OnErr, IfSome};
ghost use Rattle.proto_wire.specs.declared.limit.TheConstants.{GREATEST_FIELD_NUMBER, SPAN_TYPE, VARINT_OCTETS};
ghost use Rattle.proto_wire.specs.Written.{varint_of, key_of};
ghost use Rattle.cosim_msgs.specs.Spelling.{octets_field as octets_spelled, number_field as number_spelled};

use esi_base::{NoMemory, Octets};
use proto_wire::limit::SPAN_TYPE;
use proto_wire::{write_span, write_varint};

/// Adds a field of octets, which is left out where there are none.
pub(crate) fn write_octets(out: &mut Octets, number: u32, octets: &[u8]) -> Result<(), NoMemory>
    requires least { 1 ≤ number }
    requires most { number ≤ GREATEST_FIELD_NUMBER }
    ensures written { OnOk result (out.new ≡ out.old ++ octets_spelled number octets.now) }
    ensures unchanged { OnErr result (out.new ≡ out.old) }
    ensures small { length octets.now < 2 ^ 64 }
{
    if octets.is_empty() {
        Ok(())
    } else {
        write_span(out, number, octets)
    }
}

/// Adds the key of a field of octets, and the varint of how many there are, which are still to come.
pub(crate) fn write_head(out: &mut Octets, number: u32, len: usize) -> Result<(), NoMemory>
    ensures written { OnOk result (out.new ≡ out.old ++ (key_of number SPAN_TYPE ++ varint_of len)) }
    ensures front { take (length out.old) out.new ≡ out.old }
{
    write_varint(out, 8 * u64::from(number) + SPAN_TYPE)?;
    write_varint(out, len as u64)
}

/// Leaves what was written, or takes it back when memory ran out: then the first `len` octets are left.
pub(crate) fn settle(
    out: &mut Octets,
    len: usize,
    written: Result<(), NoMemory>,
) -> Result<(), NoMemory>
    requires { len ≤ length out.old }
    ensures same { result ≡ written }
    ensures stays { OnOk written (out.new ≡ out.old) }
    ensures undone { OnErr written (out.new ≡ take len out.old) }
    ensures small { length out.new < 2 ^ 64 }
{
    prove!(len <= out.len());
    if written.is_err() {
        out.truncate(len);
    }
    written
}

/// Adds a field of a number, which is left out where that is 0.
pub(crate) fn write_number(out: &mut Octets, number: u32, value: u32) -> Result<(), NoMemory>
    ensures written { OnOk result (out.new ≡ out.old ++ number_spelled number value) }
    ensures front { take (length out.old) out.new ≡ out.old }
{
    if value == 0 {
        return Ok(());
    }
    write_varint(out, 8 * u64::from(number))?;
    write_varint(out, u64::from(value))
}

/// How many octets such a field takes.
pub(crate) fn number_len(number: u32, value: u32) -> usize
    ensures len { result ≡ length (number_spelled number value) }
    ensures short { result ≤ 2 * VARINT_OCTETS }
{
    if value == 0 {
        0
    } else {
        varint_len(8 * u64::from(number)) + varint_len(u64::from(value))
    }
}

/// How many octets a field of octets takes; None where there is no such count.
pub(crate) fn octets_len(number: u32, octets: &[u8]) -> Option<usize>
    requires { number < 16 }
    ensures { IfSome result (λ len. len ≡ length (octets_spelled number octets.now)) }
{
    if octets.is_empty() {
        Some(0)
    } else {
        span_len(octets.len())
    }
}

/// How many octets a field of so many octets takes, with its key of one octet and its length.
pub(crate) fn span_len(len: usize) -> Option<usize>
    ensures { IfSome result (λ whole. whole ≡ 1 + (length (varint_of len) + len)) }
{
    len.checked_add(1 + varint_len(len as u64))
}

/// How many octets the varint of a number takes.
fn varint_len(value: u64) -> usize
    ensures len { result ≡ length (varint_of value) }
    ensures short { result ≤ VARINT_OCTETS }
{
    let mut len = 1;
    let mut rest = value;
    while rest >= 128 {
        rest /= 128;
        len += 1;
    }
    len
}
