//! Texts as they stand in a case: `\n`, `\t`, `\r` and `\\` are one octet each, and `%64{not(}` is `not(`
//! 64 times.

use esi_base::{NoMemory, Octets};
use std::alloc::Global;

/// The longest text that is printed whole.
const LONGEST_SHOWN: usize = 400;

/// The octets of a text; None where it ends within a repetition, or its count is no number.
pub fn octets_of(alloc: Global, text: &str) -> Result<Option<Octets>, NoMemory> {
    let mut octets = Octets::new(alloc);
    let mut rest = text;
    for _ in 0..text.len() {
        let Some((front, behind)) = rest.split_once("%") else {
            break;
        };
        add_plain(&mut octets, front)?;
        let Some((count, behind)) = behind.split_once("{") else {
            return Ok(None);
        };
        let Some((piece, behind)) = behind.split_once("}") else {
            return Ok(None);
        };
        let Ok(count) = count.parse::<u32>() else {
            return Ok(None);
        };
        let mut once = Octets::new(alloc);
        add_plain(&mut once, piece)?;
        add_repeated(alloc, &mut octets, once.as_slice(), count)?;
        rest = behind;
    }
    add_plain(&mut octets, rest)?;
    Ok(Some(octets))
}

/// Adds octets so many times, a thousand at a time while that goes.
fn add_repeated(
    alloc: Global,
    octets: &mut Octets,
    piece: &[u8],
    count: u32,
) -> Result<(), NoMemory> {
    let mut thousand = Octets::new(alloc);
    if count >= 1000 {
        for _ in 0..1000 {
            thousand.push_all(piece)?;
        }
    }
    for _ in 0..count / 1000 {
        octets.push_all(thousand.as_slice())?;
    }
    for _ in 0..count % 1000 {
        octets.push_all(piece)?;
    }
    Ok(())
}

/// Adds a text without repetitions.
fn add_plain(octets: &mut Octets, text: &str) -> Result<(), NoMemory> {
    let mut is_escape = false;
    for octet in text.bytes() {
        if is_escape {
            is_escape = false;
            octets.add(escape_of(octet))?;
        } else if octet == b'\\' {
            is_escape = true;
        } else {
            octets.add(octet)?;
        }
    }
    Ok(())
}

/// The octet that a letter stands for behind a backslash.
fn escape_of(letter: u8) -> u8 {
    match letter {
        b'n' => b'\n',
        b't' => b'\t',
        b'r' => b'\r',
        _ => letter,
    }
}

/// Octets as a case writes them, without repetitions; the count alone where they are many.
pub fn written(alloc: Global, octets: &[u8]) -> Result<String, NoMemory> {
    if octets.len() > LONGEST_SHOWN {
        let count = octets.len();
        return Ok(format!(in alloc; "{count} octets")?);
    }
    let mut out = String::new(alloc);
    for octet in octets {
        match *octet {
            b'\n' => out.push_str("\\n")?,
            b'\t' => out.push_str("\\t")?,
            b'\r' => out.push_str("\\r")?,
            b'\\' => out.push_str("\\\\")?,
            other => out.push(char::from(other))?,
        }
    }
    Ok(out)
}

/// Adds a part behind a blank, if anything stands before it.
pub fn add_part(out: &mut String, part: &str) -> Result<(), NoMemory> {
    if !out.is_empty() {
        out.push_str(" ")?;
    }
    out.push_str(part)?;
    Ok(())
}

/// Adds octets as characters.
pub fn add_octets(out: &mut String, octets: &[u8]) -> Result<(), NoMemory> {
    for octet in octets {
        out.push(char::from(*octet))?;
    }
    Ok(())
}

/// Adds an offset behind a blank, or `end`.
pub fn add_offset(alloc: Global, out: &mut String, at: Option<usize>) -> Result<(), NoMemory> {
    match at {
        Some(at) => add_part(out, format!(in alloc; "{at}")?.as_str()),
        None => add_part(out, "end"),
    }
}
