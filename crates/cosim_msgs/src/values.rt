//! What a field gives to a message, by its number and its wire type.
ghost use Rattle.std.specs.Prelude.{◌≡◌, ◌<◌, ◌≤◌, length, IfOk, IfSome};
ghost use Rattle.std.specs.Str.{is_utf8 as is_utf8_text};
ghost use Rattle.esi_base.specs.Answers.{Reads};
ghost use Rattle.proto_wire.specs.FieldReading.{field_at};
ghost use Rattle.std.specs.Result.{result_map_both};
ghost use Rattle.cosim_msgs.specs.Values.{IsWithin, span, span_as as span_given, varint_as as varint_given, octets_as as octets_given};
ghost use Rattle.cosim_msgs.specs.Steps.{octets_or as octets_before, text_or as text_before};

use crate::cosim_message::MsgStop;
use crate::octet_range::OctetRange;
use proto_wire::{WireField, WireRefusal, WireRule, WireValue, read_field};
use std::str;

/// The field at an offset, at most the length; None exactly at the end.
pub(crate) fn next_field(octets: &[u8], at: usize) -> Result<Option<WireField>, WireRefusal>
    requires { at ≤ length octets.now }
    ensures exact { result ≡ field_at octets.now at }
    ensures onwards { IfOk result (λ found. IfSome found (λ field. (at < field.after) × (field.after ≤ length octets.now))) }
    ensures within { IfOk result (λ found. IfSome found (λ field. IsWithin (length octets.now) (span field.value))) }
{
    read_field(octets, at)
}

/// The same, as the answer of a call that may run out of memory.
pub(crate) fn next_field_or_stop(octets: &[u8], at: usize) -> Result<Option<WireField>, MsgStop>
    requires { at ≤ length octets.now }
    ensures exact { Reads (field_at octets.now at) result }
    ensures onwards { IfOk result (λ found. IfSome found (λ field. (at < field.after) × (field.after ≤ length octets.now))) }
    ensures within { IfOk result (λ found. IfSome found (λ field. IsWithin (length octets.now) (span field.value))) }
{
    next_field(octets, at).map_err(MsgStop::Refused)
}

/// Where the octets stand that a field gives to the one of a number.
pub(crate) fn span_as(field: &WireField, number: u32) -> Option<OctetRange>
    ensures { result ≡ span_given number field.now }
{
    match field.value {
        WireValue::Span { from, to } if field.number == number => Some(OctetRange { from, to }),
        _ => None,
    }
}

/// The varint that a field gives to the one of a number.
pub(crate) fn varint_as(field: &WireField, number: u32) -> Option<u64>
    ensures { result ≡ varint_given number field.now }
{
    match field.value {
        WireValue::Varint(value) if field.number == number => Some(value),
        _ => None,
    }
}

/// The octets that a field gives to the one of a number, or those from before.
pub(crate) fn octets_or<'a>(
    before: &'a [u8],
    octets: &'a [u8],
    field: &WireField,
    number: u32,
) -> &'a [u8]
    requires { IsWithin (length octets.now) (span field.now.value) }
    ensures { result.now ≡ octets_before before.now (octets_given octets.now number field.now) }
{
    match span_as(field, number) {
        Some(range) => &octets[range.from..range.to],
        None => before,
    }
}

/// The text that a field gives to the one of a number, or the one from before. It is refused, at the
/// offset of the field, where it is not UTF-8.
pub(crate) fn text_or<'a>(
    before: &'a [u8],
    octets: &'a [u8],
    at: usize,
    field: &WireField,
    number: u32,
) -> Result<&'a [u8], WireRefusal>
    requires { IsWithin (length octets.now) (span field.now.value) }
    ensures { text_before at before.now (octets_given octets.now number field.now) ≡ result_map_both (λ text. text.now) (λ refusal. refusal) result }
{
    match span_as(field, number) {
        Some(range) => utf8(&octets[range.from..range.to], at),
        None => Ok(before),
    }
}

/// The octets themselves where they are UTF-8, else their refusal at an offset.
fn utf8(octets: &[u8], at: usize) -> Result<&[u8], WireRefusal>
    ensures { text_before at octets.now (Some octets.now) ≡ result_map_both (λ text. text.now) (λ refusal. refusal) result }
{
    if is_utf8(octets) {
        Ok(octets)
    } else {
        Err(WireRefusal {
            number: WireRule::NotUtf8.number(),
            at,
        })
    }
}

/// Whether octets are UTF-8.
#[tactic(auto, using(crate::proofs::Texts::is_a_text, crate::proofs::Texts::is_no_text))]
fn is_utf8(octets: &[u8]) -> bool
    ensures { result ≡ is_utf8_text octets.now }
{
    str::from_utf8(octets).is_ok()
}
