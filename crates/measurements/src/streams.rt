//! Streams of length-prefixed messages.
ghost use Rattle.std.specs.Prelude.{◌<◌, ◌≤◌, length};

use esi_base::{LONGEST_TEXT, Octets, Poll};
use grpc_calls::{Deframer, prefixed};
use std::alloc::Global;

/// The longest message, in octets.
const LONGEST_MESSAGE: u32 = 16_384;

/// Reads a stream so often, fed in pieces of so many octets, and gives the count of its messages.
pub fn read(alloc: Global, rounds: u32, stream: &[u8], piece: usize) -> Option<usize>
    requires { 0 < piece }
{
    let mut made = 0;
    for _ in 0..rounds {
        made = read_once(alloc, stream, piece)?;
    }
    Some(made)
}

/// Reads a stream once, fed in pieces of so many octets, and gives the count of its messages.
fn read_once(alloc: Global, stream: &[u8], piece: usize) -> Option<usize>
    requires { 0 < piece }
{
    let mut deframer = Deframer::new(alloc, LONGEST_MESSAGE);
    let mut made: usize = 0;
    for octets in stream.chunks(piece) {
        deframer.feed(octets).ok()?;
        made = made.wrapping_add(take_messages(&mut deframer)?);
    }
    Some(made)
}

/// Takes the messages that stand whole, and counts them; None for a refusal or out of memory.
fn take_messages(deframer: &mut Deframer) -> Option<usize> {
    let mut count = 0;
    for taken in 0..u32::MAX {
        match deframer.poll_message() {
            Poll::Ready(Ok(_message)) => count = taken as usize + 1,
            Poll::Ready(Err(_stop)) => return None,
            Poll::Pending => break,
        }
    }
    Some(count)
}

/// Writes a message with its prefix so often, and gives the octets written.
pub fn write(alloc: Global, rounds: u32, message: &[u8]) -> Option<usize>
    requires { length message.now ≤ LONGEST_TEXT }
{
    let mut out = Octets::new(alloc);
    for _ in 0..rounds {
        out.truncate(0);
        prefixed(message, &mut out).ok()?;
    }
    Some(out.len())
}
