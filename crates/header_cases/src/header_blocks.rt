//! Header blocks, read by one decoder.

use esi_base::{NoMemory, Stop};
use hpack::{Decoder, Header, Headers, HpackStop};
use std::alloc::Global;

/// A block that each decoder reads that has not failed.
const FIELD: &[u8] = b"\x82";

/// The headers of blocks, with `|` between them, that one decoder reads. None where the text is none.
pub fn read(alloc: Global, text: &str) -> Result<Option<String>, NoMemory> {
    let mut decoder = Decoder::new(alloc)?;
    let mut answer = String::new(alloc);
    for (at, block) in text.split("|").enumerate() {
        let Some(octets) = octet_texts::octets_of(alloc, block)? else {
            return Ok(None);
        };
        if at > 0 {
            answer.push_str(" | ")?;
        }
        let headers = headers_of(alloc, &mut decoder, octets.as_slice())?;
        answer.push_str(headers.as_str())?;
    }
    Ok(Some(answer))
}

/// The headers of a block, or the number of the rule that it breaks; a decoder that has refused a
/// block is asked for two more, and has to refuse them by the same number.
pub fn headers_of(alloc: Global, decoder: &mut Decoder, block: &[u8]) -> Result<String, NoMemory> {
    match decoder.block(block) {
        Ok(headers) => of_headers(alloc, headers.as_slice()),
        Err(Stop::Refused(rule)) => {
            let number = rule.number();
            let again = refusal(&decoder.block(FIELD));
            let last = refusal(&decoder.block(&[]));
            if again == Some(number) && last == Some(number) {
                Ok(format!(in alloc; "refused {number} for good")?)
            } else {
                Ok(format!(in alloc; "refused {number}, and not for good")?)
            }
        }
        Err(Stop::NoMemory) => Err(NoMemory),
    }
}

/// The number of a refusal.
fn refusal(answer: &Result<Headers, HpackStop>) -> Option<u16> {
    match answer {
        Err(Stop::Refused(rule)) => Some(rule.number()),
        _ => None,
    }
}

/// Headers as text, in order.
pub fn of_headers(alloc: Global, headers: &[Header]) -> Result<String, NoMemory> {
    let mut text = String::new(alloc);
    for (at, header) in headers.iter().enumerate() {
        if at > 0 {
            text.push_str(", ")?;
        }
        let name = octet_texts::text_of(alloc, header.name.as_slice())?;
        let value = octet_texts::text_of(alloc, header.value.as_slice())?;
        text.push_str(name.as_str())?;
        text.push_str(" ")?;
        text.push_str(value.as_str())?;
    }
    if headers.is_empty() {
        text.push_str("no headers")?;
    }
    Ok(text)
}
