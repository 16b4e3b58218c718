//! Reading one field.
ghost use Rattle.std.specs.Prelude.{◌≡◌, ◌<◌, ◌≤◌, ◌↔◌, ◌*◌, ◌^◌, length, IfOk, IfSome};
ghost use Rattle.esi_base.specs.Parts.{whole};
ghost use Rattle.proto_wire.specs.declared.field.WireField.{WireField as FieldRead};
ghost use Rattle.proto_wire.specs.declared.field.WireRefusal.{WireRefusal as Refusal};
ghost use Rattle.proto_wire.specs.Fields.{IsFieldAt, IsRefusedAt, IsSpanWithin};
ghost use Rattle.proto_wire.specs.FieldReading.{field_at as field_there, field_from as field_there_from, number_of_key, value_at as value_there, varint_value_at, fixed64_at as fixed64_there, span_at as span_there, fixed32_at as fixed32_there};

use crate::field::{WireField, WireRefusal, WireValue};
use crate::limit::{FIXED32_TYPE, FIXED64_TYPE, GREATEST_FIELD_NUMBER, SPAN_TYPE, VARINT_TYPE};
use crate::rule::WireRule;
use crate::varint::varint_at;

/// The field whose key begins at an offset of the octets, at most their length; None exactly at their
/// end. It takes no memory. The key is checked first, by the rules `CutShort`, `OversizedVarint`,
/// `FieldNumber` and `WireType` in this order, then the value by `CutShort` and `OversizedVarint`.
pub fn read_field(octets: &[u8], at: usize) -> Result<Option<WireField>, WireRefusal>
    requires { at ≤ length octets.now }

    // It gives exactly the field that stands there.
    ensures field { (field : FieldRead) → (result ≡ Ok (Some field)) ↔ IsFieldAt octets.now at field }
    ensures end { (result ≡ Ok None) ↔ (at ≡ length octets.now) }

    // It refuses exactly where a rule is broken, at the key's first octet.
    ensures refused { (refusal : Refusal) → (result ≡ Err refusal) ↔ IsRefusedAt octets.now at refusal }

    // A field has octets, and they end within the octets that were given.
    ensures onwards { IfOk result (λ found. IfSome found (λ field. (at < field.after) × (field.after ≤ length octets.now))) }

    ensures span { IfOk result (λ found. IfSome found (λ field. IsSpanWithin field.after field.value)) }

    // The answer is that of the tests in their order.
    ensures exact { result ≡ field_there octets.now at }
{
    field_at(octets, at)
}

/// The same, by the tests in their order.
#[tactic(auto, unfolding(crate::specs::FieldReading::field_at))]
fn field_at(octets: &[u8], at: usize) -> Result<Option<WireField>, WireRefusal>
    requires { at ≤ length octets.now }
    ensures { result ≡ field_there octets.now at }
{
    if at == octets.len() {
        return Ok(None);
    }
    match field_from(octets, at) {
        Ok(field) => Ok(Some(field)),
        Err(rule) => Err(WireRefusal {
            number: rule.number(),
            at,
        }),
    }
}

/// The field at an offset, or the rule that is broken.
#[tactic(auto, unfolding(crate::specs::FieldReading::field_from))]
fn field_from(octets: &[u8], at: usize) -> Result<WireField, WireRule>
    requires { at ≤ length octets.now }
    ensures { result ≡ field_there_from octets.now at }
{
    let (key, key_end) = varint_at(octets, at)?;
    let number = field_number(key)?;
    let (value, after) = value_at(key % 8, octets, key_end)?;
    Ok(WireField {
        number,
        value,
        after,
    })
}

/// The field number of a key.
#[tactic(auto, unfolding(crate::specs::FieldReading::number_of_key))]
fn field_number(key: u64) -> Result<u32, WireRule>
    ensures { result ≡ number_of_key key }
{
    let number = key / 8;
    if number == 0 || number > u64::from(GREATEST_FIELD_NUMBER) {
        Err(WireRule::FieldNumber)
    } else {
        Ok(number as u32)
    }
}

/// The value of a wire type at an offset, and the offset after it.
#[tactic(auto, unfolding(crate::specs::FieldReading::value_at))]
fn value_at(wire: u64, octets: &[u8], at: usize) -> Result<(WireValue, usize), WireRule>
    requires { at ≤ length octets.now }
    ensures { result ≡ value_there wire octets.now at }
{
    match wire {
        VARINT_TYPE => varint_value(octets, at),
        FIXED64_TYPE => fixed64_at(octets, at),
        SPAN_TYPE => span_at(octets, at),
        FIXED32_TYPE => fixed32_at(octets, at),
        _ => Err(WireRule::WireType),
    }
}

/// The varint at an offset as a value.
#[tactic(auto, unfolding(crate::specs::FieldReading::varint_value_at))]
fn varint_value(octets: &[u8], at: usize) -> Result<(WireValue, usize), WireRule>
    requires { at ≤ length octets.now }
    ensures { result ≡ varint_value_at octets.now at }
{
    let (value, after) = varint_at(octets, at)?;
    Ok((WireValue::Varint(value), after))
}

/// The eight octets at an offset.
#[tactic(auto, unfolding(crate::specs::FieldReading::fixed64_at))]
fn fixed64_at(octets: &[u8], at: usize) -> Result<(WireValue, usize), WireRule>
    requires { at ≤ length octets.now }
    ensures { result ≡ fixed64_there octets.now at }
{
    let rest = &octets[at..];
    if rest.len() < 8 {
        return Err(WireRule::CutShort);
    }
    Ok((WireValue::Fixed64(number_of_octets(&rest[..8])), at + 8))
}

/// The octets that a varint at an offset counts, after it.
#[tactic(auto, unfolding(crate::specs::FieldReading::span_at))]
fn span_at(octets: &[u8], at: usize) -> Result<(WireValue, usize), WireRule>
    requires { at ≤ length octets.now }
    ensures { result ≡ span_there octets.now at }
{
    let (len, from) = varint_at(octets, at)?;
    if len > (octets.len() - from) as u64 {
        return Err(WireRule::CutShort);
    }
    let to = from + len as usize;
    Ok((WireValue::Span { from, to }, to))
}

/// The four octets at an offset.
#[tactic(auto, unfolding(crate::specs::FieldReading::fixed32_at))]
fn fixed32_at(octets: &[u8], at: usize) -> Result<(WireValue, usize), WireRule>
    requires { at ≤ length octets.now }
    ensures { result ≡ fixed32_there octets.now at }
{
    let rest = &octets[at..];
    if rest.len() < 4 {
        return Err(WireRule::CutShort);
    }
    Ok((
        WireValue::Fixed32(number_of_octets(&rest[..4]) as u32),
        at + 4,
    ))
}

/// The number of at most eight octets, the least significant octet first.
fn number_of_octets(octets: &[u8]) -> u64
    requires { length octets.now ≤ 8 }
    ensures number { result ≡ whole 8 octets.now }
    ensures below { result < 2 ^ (8 * length octets.now) }
{
    let mut number: u64 = 0;
    for at in (0..octets.len()).rev() {
        number = u64::from(octets[at]) + 256 * number;
    }
    number
}
