//! Header lists, written by one encoder.
ghost use Rattle.std.specs.Prelude.{◌≡◌, ◌≤◌, ◌+◌, IsTrue, IfSome};
ghost use Rattle.hpack.specs.Tables.{list_size, size_of};

use crate::header_blocks;
use esi_base::{List, NoMemory, Octets};
use hpack::{Decoder, Encoder, Header, Headers, MAX_HEADER_LIST_SIZE};
use std::alloc::Global;

/// What each header counts beside its name and value (RFC 9113, section 10.5.1).
const ENTRY_OVERHEAD: usize = 32;

/// The octets of blocks of names and values that one encoder writes, with `|` between the blocks, and how
/// one decoder reads a block that it reads as another list. `limit N` in place of a block is what the peer
/// allows from there on. None where the text is none.
pub fn written(alloc: Global, text: &str) -> Result<Option<String>, NoMemory> {
    let mut encoder = Encoder::new(alloc)?;
    let mut decoder = Decoder::new(alloc)?;
    let mut answer = String::new(alloc);
    for part in text.split("|") {
        if let Some(limit) = part.trim_ascii().strip_prefix("limit ") {
            let Ok(limit) = limit.parse::<u32>() else {
                return Ok(None);
            };
            encoder.limit(limit);
        } else {
            if !answer.is_empty() {
                answer.push_str(" | ")?;
            }
            let Some(block) = block_text(alloc, &mut encoder, &mut decoder, part)? else {
                return Ok(None);
            };
            answer.push_str(block.as_str())?;
        }
    }
    Ok(Some(answer))
}

/// The octets of one block, and how it is read where that is another list.
fn block_text(
    alloc: Global,
    encoder: &mut Encoder,
    decoder: &mut Decoder,
    text: &str,
) -> Result<Option<String>, NoMemory> {
    let Some(headers) = headers_of(alloc, text)? else {
        return Ok(None);
    };
    let mut out = Octets::new(alloc);
    if !write(encoder, &headers, &mut out)? {
        return Ok(None);
    }
    let mut answer = octet_texts::digits_of(alloc, out.as_slice())?;
    let due = header_blocks::of_headers(alloc, headers.as_slice())?;
    let read = header_blocks::headers_of(alloc, decoder, out.as_slice())?;
    if read.as_str() != due.as_str() {
        answer.push_str(", but read as ")?;
        answer.push_str(read.as_str())?;
    }
    Ok(Some(answer))
}

/// Headers of names and values, one after another; None where the text is none.
pub fn headers_of(alloc: Global, text: &str) -> Result<Option<Headers>, NoMemory> {
    let Some(parts) = octet_texts::items_of(alloc, text)? else {
        return Ok(None);
    };
    let mut headers = List::new(alloc);
    let mut rest = parts.as_slice();
    for _ in 0..u32::MAX {
        match rest {
            [name, value, more @ ..] => {
                headers.add(header(alloc, name.as_slice(), value.as_slice())?)?;
                rest = more;
            }
            _ => break,
        }
    }
    if rest.is_empty() {
        Ok(Some(headers))
    } else {
        Ok(None)
    }
}

/// A header of a name and a value.
pub fn header(alloc: Global, name: &[u8], value: &[u8]) -> Result<Header, NoMemory> {
    Ok(Header {
        name: Octets::from_slice(alloc, name)?,
        value: Octets::from_slice(alloc, value)?,
    })
}

/// Writes headers; whether their size is small enough.
pub fn write(encoder: &mut Encoder, headers: &Headers, out: &mut Octets) -> Result<bool, NoMemory> {
    if !is_small(headers.as_slice()) {
        return Ok(false);
    }
    encoder.block(headers, out)?;
    Ok(true)
}

/// Whether the size of headers is small enough.
fn is_small(headers: &[Header]) -> bool
    ensures { IsTrue result → list_size headers.now ≤ MAX_HEADER_LIST_SIZE }
{
    let mut room = MAX_HEADER_LIST_SIZE;
    for header in headers {
        let Some(rest) = room_after(room, header) else {
            return false;
        };
        room = rest;
    }
    true
}

/// What is left of a room after a header, where it fits.
fn room_after(room: usize, header: &Header) -> Option<usize>
    ensures { IfSome result (λ rest. rest + size_of header.now ≡ room) }
{
    let after_name = room.checked_sub(header.name.len())?;
    let after_value = after_name.checked_sub(header.value.len())?;
    after_value.checked_sub(ENTRY_OVERHEAD)
}
