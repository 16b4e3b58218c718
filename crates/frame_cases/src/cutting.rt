//! Reading octets at many cuttings.

use crate::text;
use case_words::Numbers;
use esi_base::Poll;
use h2_frames::{FrameReader, FrameStop, Role};
use std::alloc::{AllocError, Global};

/// Octets that are no more than these are cut in two at each offset.
const SHORT: usize = 150;

/// At how many offsets longer ones are cut in two, so that they take no long time.
const PLACES: usize = 12;

/// Reads octets whole, cut in two at each offset, or at some where they are many, octet by octet, and at
/// some random cuttings; gives the frames and what comes after them, and says so where another cutting
/// gave another answer.
pub fn answer(alloc: Global, role: Role, octets: &[u8]) -> Result<String, AllocError> {
    let mut whole = read_in_pieces(alloc, role, octets, Cuts::None)?;
    let differing = differing_in_two(alloc, role, octets, whole.as_str())?.saturating_add(
        differing_otherwise(alloc, role, octets, whole.as_str())?,
    );
    if differing > 0 {
        let note = format!(in alloc; "; {differing} cuttings give another answer")?;
        whole.push_str(note.as_str())?;
    }
    Ok(whole)
}

/// How many cuttings in two give another answer than this one.
fn differing_in_two(
    alloc: Global,
    role: Role,
    octets: &[u8],
    whole: &str,
) -> Result<u32, AllocError> {
    let step = if octets.len() <= SHORT {
        1
    } else {
        octets.len() / PLACES
    };
    let mut differing: u32 = 0;
    for part in 0..SHORT {
        let at = part.wrapping_mul(step).wrapping_add(1);
        if at < octets.len() {
            let cut = read_in_pieces(alloc, role, octets, Cuts::At(at))?;
            differing = differing.saturating_add(u32::from(cut.as_str() != whole));
        }
    }
    Ok(differing)
}

/// How many of the cutting octet by octet and of some random ones give another answer than this one.
fn differing_otherwise(
    alloc: Global,
    role: Role,
    octets: &[u8],
    whole: &str,
) -> Result<u32, AllocError> {
    let single = read_in_pieces(alloc, role, octets, Cuts::Each)?;
    let mut differing = u32::from(single.as_str() != whole);
    let mut numbers = Numbers::new((octets.len() % 1_000) as u32);
    for _ in 0..3 {
        let random = read_in_pieces(alloc, role, octets, Cuts::Random(&mut numbers))?;
        differing = differing.saturating_add(u32::from(random.as_str() != whole));
    }
    Ok(differing)
}

/// The same at one random cutting.
pub fn at_random(
    alloc: Global,
    role: Role,
    octets: &[u8],
    numbers: &mut Numbers,
) -> Result<String, AllocError> {
    read_in_pieces(alloc, role, octets, Cuts::Random(numbers))
}

/// How octets are cut.
#[derive(Drop)]
enum Cuts<'a> {
    /// Not at all.
    None,
    /// Before this offset.
    At(usize),
    /// After each octet.
    Each,
    /// In random pieces.
    Random(&'a mut Numbers),
}

/// Reads octets in pieces, and is asked for frames after each piece.
fn read_in_pieces(
    alloc: Global,
    role: Role,
    octets: &[u8],
    cuts: Cuts,
) -> Result<String, AllocError> {
    let Ok(mut reader) = FrameReader::new(alloc, role) else {
        return Err(AllocError);
    };
    let mut frames = String::new(alloc);
    match cuts {
        Cuts::None => feed(alloc, &mut reader, octets, &mut frames)?,
        Cuts::At(at) => {
            let at = at.min(octets.len());
            feed(alloc, &mut reader, &octets[..at], &mut frames)?;
            feed(alloc, &mut reader, &octets[at..], &mut frames)?;
        }
        Cuts::Each => {
            for octet in octets {
                feed(alloc, &mut reader, &[*octet], &mut frames)?;
            }
        }
        Cuts::Random(numbers) => feed_random(alloc, &mut reader, octets, numbers, &mut frames)?,
    }
    let end = end_of(alloc, &mut reader)?;
    frames.push_str(end.as_str())?;
    Ok(frames)
}

/// Feeds octets in random pieces of 0 to 40 octets.
fn feed_random(
    alloc: Global,
    reader: &mut FrameReader,
    octets: &[u8],
    numbers: &mut Numbers,
    frames: &mut String,
) -> Result<(), AllocError> {
    let mut rest = octets;
    for _ in 0..octets.len() {
        let count = (numbers.below(41) as usize).min(rest.len());
        feed(alloc, reader, &rest[..count], frames)?;
        rest = &rest[count..];
    }
    feed(alloc, reader, rest, frames)
}

/// Feeds a piece, and adds the frames that stand whole then.
fn feed(
    alloc: Global,
    reader: &mut FrameReader,
    piece: &[u8],
    frames: &mut String,
) -> Result<(), AllocError> {
    if reader.feed(piece).is_err() {
        return Err(AllocError);
    }
    for _ in 0..u32::MAX {
        match reader.poll_frame() {
            Poll::Ready(Ok(frame)) => {
                let text = text::of_frame(alloc, &frame)?;
                frames.push_str(text.as_str())?;
                frames.push_str("; ")?;
            }
            Poll::Ready(Err(FrameStop::NoMemory)) => return Err(AllocError),
            Poll::Ready(Err(FrameStop::Fault { code: _ })) | Poll::Pending => break,
        }
    }
    Ok(())
}

/// What comes after the frames; a fault is asked for three times.
fn end_of(alloc: Global, reader: &mut FrameReader) -> Result<String, AllocError> {
    let first = once(reader);
    if once(reader) != first || once(reader) != first {
        return String::from_str(alloc, "another end each time");
    }
    match first {
        Some(code) => format!(in alloc; "fault {code}"),
        None => String::from_str(alloc, "pending"),
    }
}

/// The code of a fault, None where nothing comes.
fn once(reader: &mut FrameReader) -> Option<u32> {
    match reader.poll_frame() {
        Poll::Ready(Err(FrameStop::Fault { code })) => Some(code),
        _ => None,
    }
}
