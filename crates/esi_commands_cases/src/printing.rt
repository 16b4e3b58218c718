//! What came of a case, as text.
use command_runs::{Cause, Outcome, Told};
use esi_links::Note;
use std::io;

/// Prints an outcome.
pub fn print_outcome(rt: &impl Print, outcome: &Outcome) -> io::Result<()> {
    let status = outcome.status;
    let told = match outcome.told {
        Told::Whole => "whole",
        Told::Fault => "in part, since it failed",
        Told::NoMemory => "in part, out of memory",
    };
    match &outcome.cause {
        Cause::Plain => println!(rt; "status {status}, told {told}"),
        Cause::Refused { word, refusal } => {
            let number = refusal.number;
            let line = refusal.place.line;
            let column = refusal.place.column;
            println!(rt; "status {status}, told {told}: word {word}, {number} at {line}:{column}")
        }
        Cause::PeerFault { .. }
        | Cause::PeerStatus { .. }
        | Cause::Unfinished { .. }
        | Cause::Turns { .. } => println!(rt;
            "status {status}, told {told}, with a cause of links"
        ),
    }
}

/// Prints the lines of a text, each after the name of its sink; `no LF` where the last line has none.
pub fn print_text(rt: &impl Print, name: &str, text: &[u8]) -> io::Result<()> {
    let Ok(text) = str::from_utf8(text) else {
        return println!(rt; "{name} is no text");
    };
    for line in text.lines() {
        println!(rt; "{name} > {line}")?;
    }
    if !text.is_empty() && !text.ends_with('\n') {
        println!(rt; "{name} ends without LF")?;
    }
    Ok(())
}

/// Prints the reads of files in their order, those of one file that stand together in one line: how many
/// they are, how many octets they found, and whether the last one failed.
pub fn print_reads(rt: &impl Print, notes: &[Note]) -> io::Result<()> {
    let mut reads = 0u64;
    let mut octets = 0u64;
    for (k, note) in notes.iter().enumerate() {
        reads = reads.saturating_add(1);
        octets = octets.saturating_add(note.count.unwrap_or(0) as u64);
        if is_last_of_file(note, notes.get(k + 1)) {
            print_reads_of(rt, note, reads, octets)?;
            reads = 0;
            octets = 0;
        }
    }
    Ok(())
}

/// Whether the next read, if there is one, is of another file.
fn is_last_of_file(note: &Note, next: Option<&Note>) -> bool {
    match next {
        Some(next) => next.name.as_slice() != note.name.as_slice(),
        None => true,
    }
}

/// Prints the reads of one file, of which this is the last.
fn print_reads_of(rt: &impl Print, last: &Note, reads: u64, octets: u64) -> io::Result<()> {
    let Ok(name) = str::from_utf8(last.name.as_slice()) else {
        return println!(rt; "a name is no text");
    };
    let end = if last.count.is_none() {
        ", and failed"
    } else {
        ""
    };
    println!(rt; "read {name}: {reads} reads, {octets} octets{end}")
}
