//! Small texts: their lines and parts, numbers and octets in hexadecimal.

use crate::escapes::{add_part, octets_of, written};
use esi_base::{NoMemory, Octets};
use small_text::{Line, Lines, Part, push_hex, read_number, read_octets};
use std::alloc::Global;

/// The longest small text that a case has, in octets.
const LONGEST_CASE: usize = 1_000_000;

/// The lines that count, each with its number and its parts, as `3 put@3 a@8;`.
pub fn answer(alloc: Global, text: &str) -> Result<Option<String>, NoMemory> {
    let Some(octets) = octets_of(alloc, text)? else {
        return Ok(None);
    };
    if octets.len() > LONGEST_CASE {
        return Ok(None);
    }
    let mut out = String::new(alloc);
    let mut lines = Lines::new(octets.as_slice());
    for _ in 0..octets.len() {
        let Some(mut line) = lines.next_line() else {
            break;
        };
        add_line(alloc, &mut out, &mut line, octets.len())?;
    }
    Ok(Some(out))
}

/// Adds a line.
fn add_line(
    alloc: Global,
    out: &mut String,
    line: &mut Line<'_>,
    longest: usize,
) -> Result<(), NoMemory> {
    let word = part_text(alloc, line, line.word())?;
    add_part(out, word.as_str())?;
    for _ in 0..longest {
        let Some(part) = line.next_part() else {
            break;
        };
        let part = part_text(alloc, line, &part)?;
        add_part(out, part.as_str())?;
    }
    Ok(())
}

/// A part with its place.
fn part_text(alloc: Global, line: &Line<'_>, part: &Part<'_>) -> Result<String, NoMemory> {
    let octets = written(alloc, part.octets())?;
    let place = line.place(part);
    let line = place.line;
    let column = place.column;
    Ok(format!(in alloc; "{octets}@{line}:{column}")?)
}

/// A number that is at most a bound, `BOUND DIGITS`.
pub fn number(alloc: Global, text: &str) -> Result<Option<String>, NoMemory> {
    let (bound, digits) = text.split_once(" ").unwrap_or((text, ""));
    let Ok(bound) = bound.parse::<u64>() else {
        return Ok(None);
    };
    match read_number(digits.as_bytes(), bound) {
        Some(number) => Ok(Some(format!(in alloc; "{number}")?)),
        None => Ok(Some(String::from_str(alloc, "none")?)),
    }
}

/// Octets in hexadecimal: how many they are, and their text again.
pub fn hex(alloc: Global, text: &str) -> Result<Option<String>, NoMemory> {
    match read_octets(alloc, text.as_bytes())? {
        Some(octets) => {
            let mut again = Octets::new(alloc);
            push_hex(&mut again, octets.as_slice())?;
            let again = written(alloc, again.as_slice())?;
            let count = octets.len();
            Ok(Some(format!(in alloc; "{count} octets {again}")?))
        }
        None => Ok(Some(String::from_str(alloc, "none")?)),
    }
}
