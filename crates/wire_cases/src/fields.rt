//! Fields of the Protocol Buffers encoding.

use esi_base::{NoMemory, Octets};
use proto_wire::{WireField, WireRefusal, WireValue, read_field, write_span, write_varint};
use std::alloc::Global;

/// The greatest number of a field.
const GREATEST: u32 = 536_870_911;

/// The fields of octets, and where each one ends; the refusal of the first that is none. None where the
/// text is no octets.
pub fn read(alloc: Global, text: &str) -> Result<Option<String>, NoMemory> {
    match octet_texts::octets_of(alloc, text)? {
        Some(octets) => Ok(Some(fields_of(alloc, octets.as_slice())?)),
        None => Ok(None),
    }
}

/// The fields of octets, as text.
pub fn fields_of(alloc: Global, octets: &[u8]) -> Result<String, NoMemory> {
    let mut text = String::new(alloc);
    let mut at = 0;
    for _ in 0..u32::MAX {
        if at > octets.len() {
            break;
        }
        match read_field(octets, at) {
            Ok(Some(field)) => {
                add_field(alloc, &mut text, octets, &field)?;
                at = field.after;
            }
            Ok(None) => {
                text.push_str("end")?;
                return Ok(text);
            }
            Err(refusal) => {
                let refusal = of_refusal(alloc, refusal)?;
                text.push_str(refusal.as_str())?;
                return Ok(text);
            }
        }
    }
    Ok(text)
}

/// A refusal: its number, and the index of the octet with which the field begins.
pub fn of_refusal(alloc: Global, refusal: WireRefusal) -> Result<String, NoMemory> {
    let number = refusal.number;
    let at = refusal.at;
    Ok(format!(in alloc; "refused {number} at {at}")?)
}

/// Adds a field as text: its number, its value, and the index after its last octet.
fn add_field(
    alloc: Global,
    text: &mut String,
    octets: &[u8],
    field: &WireField,
) -> Result<(), NoMemory> {
    let number = field.number;
    let after = field.after;
    let value = match field.value {
        WireValue::Varint(value) => format!(in alloc; "varint {value}")?,
        WireValue::Fixed64(value) => format!(in alloc; "fixed64 {value}")?,
        WireValue::Fixed32(value) => format!(in alloc; "fixed32 {value}")?,
        WireValue::Span { from, to } => span_of(alloc, octets.get(from..to).unwrap_or(&[]))?,
    };
    let field = format!(in alloc; "{number}: {value} to {after}, ")?;
    text.push_str(field.as_str())?;
    Ok(())
}

/// Octets of a field as text.
fn span_of(alloc: Global, octets: &[u8]) -> Result<String, NoMemory> {
    let octets = octet_texts::text_of(alloc, octets)?;
    Ok(format!(in alloc; "octets {octets}")?)
}

/// The octets of varints, each a decimal number, and of fields of octets, as `2: "testing"`, that are
/// written one after another with `|` between them. None where the text is none.
pub fn written(alloc: Global, text: &str) -> Result<Option<String>, NoMemory> {
    let mut out = Octets::new(alloc);
    for part in text.split("|") {
        if !write_part(alloc, part, &mut out)? {
            return Ok(None);
        }
    }
    Ok(Some(octet_texts::digits_of(alloc, out.as_slice())?))
}

/// Writes a varint or a field of octets; whether the text is one.
fn write_part(alloc: Global, part: &str, out: &mut Octets) -> Result<bool, NoMemory> {
    let Some((number, value)) = part.split_once(":") else {
        let Ok(value) = part.trim_ascii().parse::<u64>() else {
            return Ok(false);
        };
        write_varint(out, value)?;
        return Ok(true);
    };
    let Ok(number) = number.trim_ascii().parse::<u32>() else {
        return Ok(false);
    };
    let Some(octets) = octet_texts::octets_of(alloc, value)? else {
        return Ok(false);
    };
    write_octets(out, number, octets.as_slice())
}

/// Writes a field of octets; whether the number is one of a field.
pub fn write_octets(out: &mut Octets, number: u32, octets: &[u8]) -> Result<bool, NoMemory> {
    if number < 1 || number > GREATEST {
        return Ok(false);
    }
    write_span(out, number, octets)?;
    Ok(true)
}
