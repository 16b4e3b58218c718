//! What calls ask for: `NAME=VALUE NAME=VALUE | OCTETS`, the header fields and the content.

use bit_packing::to_octets;
use case_words::octets_of;
use esi_base::{List, NoMemory, Word};
use esi_types::Directory;
use grpc_calls::{Asking, classify};
use hpack::{Header, Headers};
use std::alloc::Global;

/// What a call asks for.
pub fn answer(
    alloc: Global,
    text: &str,
    directory: &Directory,
) -> Result<Option<String>, NoMemory> {
    let (fields, body) = text.split_once("|").unwrap_or((text, ""));
    let Some(headers) = headers(alloc, fields)? else {
        return Ok(None);
    };
    let Some(body) = octets_of(alloc, body)? else {
        return Ok(None);
    };
    let asking = classify(alloc, &headers, &body, directory)?;
    Ok(Some(shown(alloc, &asking)?))
}

/// A header list.
fn headers(alloc: Global, text: &str) -> Result<Option<Headers>, NoMemory> {
    let mut headers = List::new(alloc);
    for part in text.split_whitespace() {
        let Some((name, value)) = part.split_once("=") else {
            return Ok(None);
        };
        headers.add(Header {
            name: List::from_slice(alloc, name.as_bytes())?,
            value: List::from_slice(alloc, value.as_bytes())?,
        })?;
    }
    Ok(Some(headers))
}

/// What is asked for, as it is printed.
fn shown(alloc: Global, asking: &Asking) -> Result<String, NoMemory> {
    match asking {
        Asking::Http(status) => Ok(format!(in alloc; "http {status}")?),
        Asking::Status(status) => Ok(format!(in alloc; "status {status}")?),
        Asking::Listing => Ok(String::from_str(alloc, "list")?),
        Asking::Put { channel, word } => {
            let digits = word_digits(alloc, word)?;
            Ok(format!(in alloc; "put {channel} {digits}")?)
        }
        Asking::Attach { channel } => Ok(format!(in alloc; "attach {channel}")?),
    }
}

/// The octets of a word, in hexadecimal digits.
fn word_digits(alloc: Global, word: &Word) -> Result<String, NoMemory> {
    let mut octets = vec![in alloc; 0; word.width().div_ceil(8) as usize]?;
    to_octets(word, &mut octets);
    digits_of(alloc, &octets)
}

/// Hexadecimal digits, two an octet.
pub fn digits_of(alloc: Global, octets: &[u8]) -> Result<String, NoMemory> {
    let mut text = String::new(alloc);
    for octet in octets {
        let digits = format!(in alloc; "{octet:02x}")?;
        text.push_str(digits.as_str())?;
    }
    Ok(text)
}
