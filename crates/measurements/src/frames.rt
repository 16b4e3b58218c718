//! The frames of an HTTP/2 connection.
ghost use Rattle.std.specs.Prelude.{◌<◌};

use esi_base::{List, Poll};
use h2_frames::{Frame, FrameReader, Role, frame_len, is_writable, write_frame};
use std::alloc::Global;

/// SETTINGS without a setting: the first frame that a server sends (RFC 9113, section 3.4).
const FIRST_FRAME: &[u8] = b"\0\0\0\x04\0\0\0\0\0";

/// A reader of the frames that a server sends behind its first one.
fn reader_behind_the_first(alloc: Global) -> Option<FrameReader> {
    let mut reader = FrameReader::new(alloc, Role::Client).ok()?;
    reader.feed(FIRST_FRAME).ok()?;
    take_frames(&mut reader, &mut List::new(alloc))?;
    Some(reader)
}

/// Takes the frames that stand whole into a list; None for a fault or out of memory.
fn take_frames(reader: &mut FrameReader, frames: &mut List<Frame>) -> Option<()> {
    for _ in 0..u32::MAX {
        match reader.poll_frame() {
            Poll::Ready(Ok(frame)) => frames.add(frame).ok()?,
            Poll::Ready(Err(_stop)) => return None,
            Poll::Pending => break,
        }
    }
    Some(())
}

/// Reads frames so often, fed in pieces of so many octets, and gives their count.
pub fn read(alloc: Global, rounds: u32, octets: &[u8], piece: usize) -> Option<usize>
    requires { 0 < piece }
{
    let mut reader = reader_behind_the_first(alloc)?;
    let mut frames = List::new(alloc);
    for _ in 0..rounds {
        frames.truncate(0);
        for fed in octets.chunks(piece) {
            reader.feed(fed).ok()?;
            take_frames(&mut reader, &mut frames)?;
        }
    }
    Some(frames.len())
}

/// Reads frames, writes each so often, and gives the octets written in a round.
pub fn write(alloc: Global, rounds: u32, octets: &[u8]) -> Option<usize> {
    let mut reader = reader_behind_the_first(alloc)?;
    let mut frames = List::new(alloc);
    reader.feed(octets).ok()?;
    take_frames(&mut reader, &mut frames)?;
    let mut out = Vec::from_elem(alloc, 0u8, octets.len()).ok()?;
    let mut written: usize = 0;
    for _ in 0..rounds {
        written = 0;
        for frame in frames.as_slice() {
            written = written.wrapping_add(write_one(frame, out.as_mut_slice())?);
        }
    }
    Some(written)
}

/// Writes a frame at the front of octets; None where they have no room for it.
fn write_one(frame: &Frame, out: &mut [u8]) -> Option<usize> {
    if !is_writable(frame) {
        return None;
    }
    let len = frame_len(frame);
    if len > out.len() {
        return None;
    }
    write_frame(frame, &mut out[..len]);
    Some(len)
}
