//! The texts of cases.

use esi_base::{NoMemory, Octets};
use std::alloc::Global;

/// The text of a case: its octets with `|` for LF, where a piece between brackets stands so often as the
/// number behind it says, as in `bytes 0 [00]16384 `. None where a number is none.
pub fn text_of(alloc: Global, case: &str) -> Result<Option<Octets>, NoMemory> {
    let mut text = Octets::new(alloc);
    let mut first = true;
    for piece in case.split("[") {
        if first {
            add_octets(&mut text, piece)?;
            first = false;
        } else {
            let (repeated, after) = piece.split_once("]").unwrap_or((piece, ""));
            let (count, rest) = after.split_once(" ").unwrap_or((after, ""));
            let Ok(count) = count.parse::<u32>() else {
                return Ok(None);
            };
            for _ in 0..count {
                add_octets(&mut text, repeated)?;
            }
            add_octets(&mut text, rest)?;
        }
    }
    Ok(Some(text))
}

/// Adds octets, LF for each `|`.
fn add_octets(text: &mut Octets, piece: &str) -> Result<(), NoMemory> {
    for octet in piece.as_bytes() {
        text.add(if *octet == b'|' { b'\n' } else { *octet })?;
    }
    Ok(())
}
