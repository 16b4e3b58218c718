//! Random fields, messages, calls and texts, written and read again.

use crate::{calls, fields, messages, written_messages};
use case_words::Numbers;
use esi_base::{List, NoMemory, Octets};
use grpc_calls::Deframer;
use octet_texts::{random_letters, random_octets};
use proto_wire::write_varint;
use std::alloc::Global;

/// Whether 0 to 7 random fields are read as they were written.
pub fn fields_come_back(alloc: Global, numbers: &mut Numbers) -> Result<bool, NoMemory> {
    let mut out = Octets::new(alloc);
    let mut due = String::new(alloc);
    for _ in 0..numbers.below(8) {
        add_field(alloc, numbers, &mut out, &mut due)?;
    }
    due.push_str("end")?;
    let read = fields::fields_of(alloc, out.as_slice())?;
    Ok(read.as_str() == due.as_str())
}

/// Adds a random field, and adds it as text.
fn add_field(
    alloc: Global,
    numbers: &mut Numbers,
    out: &mut Octets,
    due: &mut String,
) -> Result<(), NoMemory> {
    let number = field_number(numbers);
    let value = add_value(alloc, numbers, number, out)?;
    let after = out.len();
    let field = format!(in alloc; "{number}: {value} to {after}, ")?;
    due.push_str(field.as_str())?;
    Ok(())
}

/// Adds a field with a random value, and gives the value as text.
fn add_value(
    alloc: Global,
    numbers: &mut Numbers,
    number: u32,
    out: &mut Octets,
) -> Result<String, NoMemory> {
    match numbers.below(4) {
        0 => add_varint(alloc, numbers, number, out),
        1 => add_fixed64(alloc, numbers, number, out),
        2 => add_fixed32(alloc, numbers, number, out),
        _ => add_span(alloc, numbers, number, out),
    }
}

fn add_varint(
    alloc: Global,
    numbers: &mut Numbers,
    number: u32,
    out: &mut Octets,
) -> Result<String, NoMemory> {
    let value = varint(numbers);
    write_varint(out, u64::from(number) * 8)?;
    write_varint(out, value)?;
    Ok(format!(in alloc; "varint {value}")?)
}

fn add_fixed64(
    alloc: Global,
    numbers: &mut Numbers,
    number: u32,
    out: &mut Octets,
) -> Result<String, NoMemory> {
    let value = varint(numbers);
    write_varint(out, u64::from(number) * 8 + 1)?;
    out.push_all(&value.to_le_bytes())?;
    Ok(format!(in alloc; "fixed64 {value}")?)
}

fn add_fixed32(
    alloc: Global,
    numbers: &mut Numbers,
    number: u32,
    out: &mut Octets,
) -> Result<String, NoMemory> {
    let value = numbers.next();
    write_varint(out, u64::from(number) * 8 + 5)?;
    out.push_all(&value.to_le_bytes())?;
    Ok(format!(in alloc; "fixed32 {value}")?)
}

fn add_span(
    alloc: Global,
    numbers: &mut Numbers,
    number: u32,
    out: &mut Octets,
) -> Result<String, NoMemory> {
    let octets = random_octets(alloc, numbers, 200)?;
    fields::write_octets(out, number, octets.as_slice())?;
    let octets = octet_texts::text_of(alloc, octets.as_slice())?;
    Ok(format!(in alloc; "octets {octets}")?)
}

/// The number of a field: often a small one, sometimes any.
fn field_number(numbers: &mut Numbers) -> u32 {
    if numbers.coin() {
        numbers.below(20) + 1
    } else {
        numbers.below(536_870_911) + 1
    }
}

/// A number of any length.
fn varint(numbers: &mut Numbers) -> u64 {
    let high = u64::from(numbers.next()) << 32;
    let bits = numbers.below(64);
    (high + u64::from(numbers.next())) >> bits
}

/// Whether a random message of one of the five kinds is read as it was written.
pub fn message_comes_back(alloc: Global, numbers: &mut Numbers) -> Result<bool, NoMemory> {
    let mut parts = List::new(alloc);
    let (kind, due) = match numbers.below(5) {
        0 => ("addressed", add_addressed(alloc, numbers, &mut parts)?),
        1 => ("channel", add_channel(alloc, numbers, &mut parts)?),
        2 => ("channels", add_channels(alloc, numbers, &mut parts)?),
        3 => ("data", add_data(alloc, numbers, &mut parts)?),
        _ => ("void", String::from_str(alloc, "void")?),
    };
    let mut out = Octets::new(alloc);
    if !written_messages::write_kind(alloc, kind, parts.as_slice(), &mut out)? {
        return Ok(false);
    }
    match messages::message_of(alloc, kind, out.as_slice())? {
        Some(read) => Ok(read.as_str() == due.as_str()),
        None => Ok(false),
    }
}

/// Adds the parts of a message for a channel, and gives it as text.
fn add_addressed(
    alloc: Global,
    numbers: &mut Numbers,
    parts: &mut List<Octets>,
) -> Result<String, NoMemory> {
    let name = random_letters(alloc, numbers, 40)?;
    let data = random_octets(alloc, numbers, 400)?;
    let channel = octet_texts::text_of(alloc, name.as_slice())?;
    let digits = octet_texts::digits_of(alloc, data.as_slice())?;
    parts.add(name)?;
    parts.add(data)?;
    Ok(format!(in alloc; "channel {channel}, data {digits}")?)
}

/// Adds the parts of a channel's description, and gives it as text.
fn add_channel(
    alloc: Global,
    numbers: &mut Numbers,
    parts: &mut List<Octets>,
) -> Result<String, NoMemory> {
    let name = random_letters(alloc, numbers, 40)?;
    let direction = (numbers.next() % 2) as u8;
    let ty = random_letters(alloc, numbers, 90)?;
    let name_text = octet_texts::text_of(alloc, name.as_slice())?;
    let ty_text = octet_texts::text_of(alloc, ty.as_slice())?;
    parts.add(name)?;
    parts.add(Octets::from_slice(alloc, &[direction])?)?;
    parts.add(ty)?;
    Ok(format!(in alloc; "name {name_text}, direction {direction}, type {ty_text}")?)
}

/// Adds the parts of 0 to 5 channels, and gives the list as text.
fn add_channels(
    alloc: Global,
    numbers: &mut Numbers,
    parts: &mut List<Octets>,
) -> Result<String, NoMemory> {
    let count = numbers.below(6);
    let mut text = format!(in alloc; "{count} channels")?;
    for _ in 0..count {
        let channel = add_channel(alloc, numbers, parts)?;
        text.push_str("; ")?;
        text.push_str(channel.as_str())?;
    }
    Ok(text)
}

/// Adds the octets of a value, and gives the message as text.
fn add_data(
    alloc: Global,
    numbers: &mut Numbers,
    parts: &mut List<Octets>,
) -> Result<String, NoMemory> {
    let data = random_octets(alloc, numbers, 400)?;
    let digits = octet_texts::digits_of(alloc, data.as_slice())?;
    parts.add(data)?;
    Ok(format!(in alloc; "data {digits}")?)
}

/// Whether 0 to 5 random messages with their prefixes, cut anyhow, are read as they were written.
pub fn calls_come_back(alloc: Global, numbers: &mut Numbers) -> Result<bool, NoMemory> {
    let mut out = Octets::new(alloc);
    let mut due = String::new(alloc);
    for _ in 0..numbers.below(6) {
        add_call(alloc, numbers, &mut out, &mut due)?;
    }
    let mut read = String::new(alloc);
    let is_pending = read_cut_anyhow(alloc, numbers, out.as_slice(), &mut read)?;
    Ok(read.as_str() == due.as_str() && is_pending)
}

/// Adds a random message with its prefix, and adds it as text.
fn add_call(
    alloc: Global,
    numbers: &mut Numbers,
    out: &mut Octets,
    due: &mut String,
) -> Result<(), NoMemory> {
    let message = random_octets(alloc, numbers, 300)?;
    calls::write(message.as_slice(), out)?;
    let digits = octet_texts::digits_of(alloc, message.as_slice())?;
    due.push_str(digits.as_str())?;
    due.push_str(", ")?;
    Ok(())
}

/// Adds the messages that octets have, read in pieces of random lengths; whether none is left at the end.
fn read_cut_anyhow(
    alloc: Global,
    numbers: &mut Numbers,
    octets: &[u8],
    read: &mut String,
) -> Result<bool, NoMemory> {
    let mut deframer = Deframer::new(alloc, 300);
    let mut rest = octets;
    let mut is_pending = true;
    for _ in 0..u32::MAX {
        if rest.is_empty() {
            break;
        }
        let count = (numbers.below(60) as usize + 1).min(rest.len());
        let end = calls::feed(alloc, &mut deframer, &rest[..count], read)?;
        is_pending = end == "pending";
        rest = &rest[count..];
    }
    Ok(is_pending)
}
