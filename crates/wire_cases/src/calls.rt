//! Messages of gRPC calls, in pieces.

use esi_base::{NoMemory, Octets, Poll};
use grpc_calls::{DeframeStop, Deframer, prefixed};
use std::alloc::Global;

/// What the first message is written after.
const BEFORE: &[u8] = b"\xff";

/// The messages that stand whole after each piece, and what comes after them: a limit, and pieces with
/// `|` between them. None where the text is none.
pub fn read(alloc: Global, text: &str) -> Result<Option<String>, NoMemory> {
    let Some((limit, pieces)) = text.split_once(" ") else {
        return Ok(None);
    };
    let Ok(limit) = limit.parse::<u32>() else {
        return Ok(None);
    };
    let mut deframer = Deframer::new(alloc, limit);
    let mut answer = String::new(alloc);
    for (at, piece) in pieces.split("|").enumerate() {
        let Some(octets) = octet_texts::octets_of(alloc, piece)? else {
            return Ok(None);
        };
        if at > 0 {
            answer.push_str(" | ")?;
        }
        let end = feed(alloc, &mut deframer, octets.as_slice(), &mut answer)?;
        answer.push_str(end)?;
    }
    Ok(Some(answer))
}

/// Feeds a piece, adds the messages that stand whole then, and gives what comes after them.
pub fn feed(
    alloc: Global,
    deframer: &mut Deframer,
    piece: &[u8],
    messages: &mut String,
) -> Result<&'static str, NoMemory> {
    deframer.feed(piece)?;
    for _ in 0..u32::MAX {
        match deframer.poll_message() {
            Poll::Ready(Ok(message)) => {
                let message = octet_texts::digits_of(alloc, message.as_slice())?;
                messages.push_str(message.as_str())?;
                messages.push_str(", ")?;
            }
            Poll::Ready(Err(DeframeStop::Compressed)) => return Ok("compressed"),
            Poll::Ready(Err(DeframeStop::TooLong)) => return Ok("too long"),
            Poll::Ready(Err(DeframeStop::NoMemory)) => return Err(NoMemory),
            Poll::Pending => return Ok("pending"),
        }
    }
    Ok("more messages than are counted")
}

/// The octets of messages with their prefixes, with `|` between them. None where the text is none.
pub fn written(alloc: Global, text: &str) -> Result<Option<String>, NoMemory> {
    let mut out = Octets::from_slice(alloc, BEFORE)?;
    for message in text.split("|") {
        let Some(message) = octet_texts::octets_of(alloc, message)? else {
            return Ok(None);
        };
        if !write(message.as_slice(), &mut out)? {
            return Ok(None);
        }
    }
    Ok(Some(octet_texts::digits_of(alloc, out.as_slice())?))
}

/// Writes a message with its prefix; whether it is short enough.
pub fn write(message: &[u8], out: &mut Octets) -> Result<bool, NoMemory> {
    if message.len() > 4_294_967_295 {
        return Ok(false);
    }
    prefixed(message, out)?;
    Ok(true)
}
