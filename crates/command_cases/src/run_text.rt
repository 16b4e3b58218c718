//! What came of a run, as text.
use command_runs::{Cause, Outcome, Told};
use esi_base::Refusal;
use esi_links::Note;
use std::alloc::{AllocError, Global};

/// The status, the cause, whether the line was written whole, and whether there is a report.
pub fn outcome_text(alloc: Global, outcome: &Outcome) -> Result<String, AllocError> {
    let mut text = String::new(alloc);
    push_number(&mut text, u64::from(outcome.status))?;
    push_cause(&mut text, &outcome.cause)?;
    text.push_str(told_name(outcome.told))?;
    text.push_str(if outcome.report.is_some() {
        ", with report; reads"
    } else {
        ", no report; reads"
    })?;
    Ok(text)
}

/// Whether the line was written whole.
fn told_name(told: Told) -> &'static str {
    match told {
        Told::Whole => ", told whole",
        Told::Fault => ", told fault",
        Told::NoMemory => ", told no memory",
    }
}

/// Adds a cause.
fn push_cause(text: &mut String, cause: &Cause) -> Result<(), AllocError> {
    match cause {
        Cause::Plain => text.push_str(" plain"),
        Cause::Refused { word, refusal } => push_refusal(text, *word, *refusal),
        Cause::PeerFault { code } => push_named(text, " peer fault ", u64::from(*code)),
        Cause::PeerStatus { name, status } => {
            push_quoted(text, " peer status ", name.as_slice())?;
            push_named(text, " ", u64::from(*status))
        }
        Cause::Unfinished { count } => push_named(text, " unfinished ", *count),
        Cause::Turns { count } => push_named(text, " turns ", u64::from(*count)),
    }
}

/// Adds a refusal.
fn push_refusal(text: &mut String, word: u32, refusal: Refusal) -> Result<(), AllocError> {
    push_named(text, " word ", u64::from(word))?;
    push_named(text, " refused ", u64::from(refusal.number))?;
    push_named(text, " ", u64::from(refusal.place.line))?;
    push_named(text, ":", u64::from(refusal.place.column))
}

/// Adds some words and a number.
fn push_named(text: &mut String, words: &str, number: u64) -> Result<(), AllocError> {
    text.push_str(words)?;
    push_number(text, number)
}

/// Adds a number.
fn push_number(text: &mut String, number: u64) -> Result<(), AllocError> {
    write!(text, "{number}")?;
    Ok(())
}

/// Adds the reads: the file, the octet from which on, and how many were found, `!` where it failed.
pub fn push_reads(text: &mut String, notes: &[Note]) -> Result<(), AllocError> {
    for note in notes {
        push_read(text, note)?;
    }
    Ok(())
}

/// Adds a read.
fn push_read(text: &mut String, note: &Note) -> Result<(), AllocError> {
    text.push_str(" ")?;
    push_octets(text, note.name.as_slice())?;
    push_named(text, "@", note.at)?;
    match note.count {
        Some(count) => push_named(text, ":", count as u64),
        None => text.push_str(":!"),
    }
}

/// Adds the text that is held under a name, `-` where none is.
pub fn push_held(text: &mut String, words: &str, held: Option<&[u8]>) -> Result<(), AllocError> {
    match held {
        Some(octets) => push_quoted(text, words, octets),
        None => {
            text.push_str(words)?;
            text.push_str("-")
        }
    }
}

/// Adds some words, and octets between quotes.
pub fn push_quoted(text: &mut String, words: &str, octets: &[u8]) -> Result<(), AllocError> {
    text.push_str(words)?;
    text.push_str("'")?;
    push_octets(text, octets)?;
    text.push_str("'")
}

/// Adds octets, with `/` for LF.
fn push_octets(text: &mut String, octets: &[u8]) -> Result<(), AllocError> {
    for octet in octets {
        push_octet(text, *octet)?;
    }
    Ok(())
}

/// Adds an octet.
fn push_octet(text: &mut String, octet: u8) -> Result<(), AllocError> {
    text.push(if octet == b'\n' {
        '/'
    } else {
        char::from(octet)
    })
}
