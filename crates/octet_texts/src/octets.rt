//! Octets as they stand in a case, and as they are printed.

use esi_base::{List, NoMemory, Octets};
use std::alloc::Global;

/// Texts of more octets than these are printed as digits.
const SHOWN: usize = 64;

/// So many equal octets, one after another, are printed as one with their count.
const RUN: u32 = 8;

/// The octets of parts as `case_words` has them, digits and digits that stand so often, as `07*300`, and texts in
/// quotes. None where one is no part.
pub fn octets_of(alloc: Global, text: &str) -> Result<Option<Octets>, NoMemory> {
    let Some(items) = items_of(alloc, text)? else {
        return Ok(None);
    };
    let mut octets = Octets::new(alloc);
    for item in items.as_slice() {
        octets.push_all(item.as_slice())?;
    }
    Ok(Some(octets))
}

/// The same, each part for itself.
pub fn items_of(alloc: Global, text: &str) -> Result<Option<List<Octets>>, NoMemory> {
    let mut items = List::new(alloc);
    let mut in_quotes = false;
    for part in text.split("\"") {
        if in_quotes {
            items.add(Octets::from_slice(alloc, part.as_bytes())?)?;
        } else {
            for word in part.split_whitespace() {
                let Some(item) = case_words::octets_of(alloc, word)? else {
                    return Ok(None);
                };
                items.add(Octets::from_vec(item))?;
            }
        }
        in_quotes = !in_quotes;
    }
    Ok(Some(items))
}

/// A text in quotes, where the octets are printed characters and not too many; else digits.
pub fn text_of(alloc: Global, octets: &[u8]) -> Result<String, NoMemory> {
    if octets.len() > SHOWN || !octets.iter().all(|octet| is_printed(*octet)) {
        return digits_of(alloc, octets);
    }
    let mut text = String::from_str(alloc, "\"")?;
    for octet in octets {
        text.push(char::from(*octet))?;
    }
    text.push_str("\"")?;
    Ok(text)
}

/// Whether an octet is a printed character other than a quote.
fn is_printed(octet: u8) -> bool {
    matches!(octet, 0x20..=0x7e) && octet != b'"'
}

/// Hexadecimal digits; `none` where there are no octets.
pub fn digits_of(alloc: Global, octets: &[u8]) -> Result<String, NoMemory> {
    let mut text = String::new(alloc);
    let mut last = 0;
    let mut count: u32 = 0;
    for octet in octets {
        if *octet != last {
            add_run(alloc, &mut text, last, count)?;
            last = *octet;
            count = 0;
        }
        count = count.saturating_add(1);
    }
    add_run(alloc, &mut text, last, count)?;
    if octets.is_empty() {
        text.push_str("none")?;
    }
    Ok(String::from_str(alloc, text.as_str().trim_ascii())?)
}

/// Adds so many equal octets.
fn add_run(alloc: Global, text: &mut String, octet: u8, count: u32) -> Result<(), NoMemory> {
    if count >= RUN {
        let run = format!(in alloc; " {octet:02x}*{count} ")?;
        text.push_str(run.as_str())?;
    } else {
        for _ in 0..count {
            let digits = format!(in alloc; "{octet:02x}")?;
            text.push_str(digits.as_str())?;
        }
    }
    Ok(())
}
