//! The status's line, which says how a command ended.
ghost use Rattle.std.specs.Prelude.{◌≡◌, ◌≤◌, ◌<◌, map, string_bytes, slice_index_or, [], IfOk, length};
ghost use Rattle.command_runs.specs.Line.{Concludes, WritesLine, BlamesOne};
ghost use Rattle.command_runs.specs.Outside.{sink_view};
ghost use Rattle.command_runs.specs.Statuses.{line_of, line_of_end, refused_line, peer_status_line, numbered_line};

use crate::{End, Ending, FileRefusal, Outcome, Told};
use endpoint_hub::Report;
use esi_base::{NoMemory, Octets, Refusal};
use esi_links::{OutStop, Sink, write_whole};
use std::alloc::{AllocError, Global};

/// The usage line: all commands, whether they are built yet or not.
const USAGE: &str =
    "usage: esi_cosim sim|cycles|format|compile|vsim|replay|pair|flood|serve|call\n";

/// Concludes a command: writes its line, if it has one, and forms the outcome. `names` are the words
/// after the command, of which a refusal blames one.
pub fn conclude<E: Sink>(
    alloc: Global,
    ending: Ending,
    report: Option<Report>,
    names: &[String],
    err: &mut E,
) -> Outcome
    requires { BlamesOne ending (length names.now) }
    ensures concludes { Concludes (map string_bytes names.now) ending report
        (sink_view (E.octets err.old) (E.faults err.old)) (sink_view (E.octets err.new) (E.faults err.new)) result }
    ensures count { E.faults err.old ≤ E.faults err.new }
{
    let told = write_status_line(alloc, &ending, names, err);
    Outcome {
        status: ending.status(),
        cause: ending.cause(),
        told,
        report,
    }
}

/// Writes the line of an ending.
fn write_status_line<E: Sink>(alloc: Global, ending: &Ending, names: &[String], err: &mut E) -> Told
    requires { BlamesOne ending.now (length names.now) }
    ensures line { WritesLine (line_of (map string_bytes names.now) ending.now)
        (sink_view (E.octets err.old) (E.faults err.old)) (sink_view (E.octets err.new) (E.faults err.new)) result }
    ensures count { E.faults err.old ≤ E.faults err.new }
{
    match ending {
        Ending::Usage => write_line(err, USAGE.as_bytes()),
        Ending::Refused(file_refusal) => write_refusal_line(alloc, names, file_refusal, err),
        Ending::ReadFault => write_line(err, b"read fault\n"),
        Ending::WriteFault => write_line(err, b"write fault\n"),
        Ending::NoMemory => write_line(err, b"no memory\n"),
        Ending::Ended(end) => write_end_line(alloc, end, err),
    }
}

/// Writes the line of a refusal.
fn write_refusal_line<E: Sink>(
    alloc: Global,
    names: &[String],
    file_refusal: &FileRefusal,
    err: &mut E,
) -> Told
    requires { file_refusal.now.word < length names.now }
    ensures line { WritesLine (refused_line (slice_index_or (map string_bytes names.now) file_refusal.now.word []) file_refusal.now.refusal)
        (sink_view (E.octets err.old) (E.faults err.old)) (sink_view (E.octets err.new) (E.faults err.new)) result }
    ensures count { E.faults err.old ≤ E.faults err.new }
{
    match refusal_line(
        alloc,
        &names[file_refusal.word as usize],
        file_refusal.refusal,
    ) {
        Ok(line) => write_line(err, line.as_str().as_bytes()),
        Err(_) => Told::NoMemory,
    }
}

/// The line of a refusal.
fn refusal_line(alloc: Global, file: &String, refusal: Refusal) -> Result<String, AllocError>
    ensures { IfOk result (λ line. string_bytes line ≡ refused_line (string_bytes file.now) refusal) }
{
    let number = refusal.number;
    let line = refusal.place.line;
    let column = refusal.place.column;
    let text = format!(in alloc; "refused {file} {number} {line}:{column}\n")?;
    Ok(text)
}

/// Writes the line of what a work came to.
fn write_end_line<E: Sink>(alloc: Global, end: &End, err: &mut E) -> Told
    ensures line { WritesLine (line_of_end end.now)
        (sink_view (E.octets err.old) (E.faults err.old)) (sink_view (E.octets err.new) (E.faults err.new)) result }
    ensures count { E.faults err.old ≤ E.faults err.new }
{
    match end {
        End::Done => write_line(err, b""),
        End::LinkFault => write_line(err, b"link fault\n"),
        End::PeerFault { code } => write_numbered_line(alloc, "peer fault ", u64::from(*code), err),
        End::PeerStatus { name, status } => write_peer_status_line(alloc, name, *status, err),
        End::Unfinished { count } => write_numbered_line(alloc, "unfinished ", *count, err),
        End::TurnsSpent { count } => write_numbered_line(
            alloc,
            "turns spent ",
            u64::from(*count),
            err,
        ),
    }
}

/// Writes a line of some words and a number.
fn write_numbered_line<E: Sink>(alloc: Global, words: &str, number: u64, err: &mut E) -> Told
    ensures line { WritesLine (numbered_line words.now number)
        (sink_view (E.octets err.old) (E.faults err.old)) (sink_view (E.octets err.new) (E.faults err.new)) result }
    ensures count { E.faults err.old ≤ E.faults err.new }
{
    match number_line(alloc, words, number) {
        Ok(line) => write_line(err, line.as_str().as_bytes()),
        Err(_) => Told::NoMemory,
    }
}

/// A line of some words and a number.
fn number_line(alloc: Global, words: &str, number: u64) -> Result<String, AllocError>
    ensures { IfOk result (λ line. string_bytes line ≡ numbered_line words.now number) }
{
    let text = format!(in alloc; "{words}{number}\n")?;
    Ok(text)
}

/// Writes the line of a channel's status.
fn write_peer_status_line<E: Sink>(alloc: Global, name: &Octets, status: u8, err: &mut E) -> Told
    ensures line { WritesLine (peer_status_line name.now status)
        (sink_view (E.octets err.old) (E.faults err.old)) (sink_view (E.octets err.new) (E.faults err.new)) result }
    ensures count { E.faults err.old ≤ E.faults err.new }
{
    match channel_status_line(alloc, name, status) {
        Ok(line) => write_line(err, line.as_slice()),
        Err(_) => Told::NoMemory,
    }
}

/// The line of a channel's status.
fn channel_status_line(alloc: Global, name: &Octets, status: u8) -> Result<Octets, NoMemory>
    ensures { IfOk result (λ line. line ≡ peer_status_line name.now status) }
{
    let mut line = Octets::from_slice(alloc, b"peer status ")?;
    line.push_all(name.as_slice())?;
    let rest = number_line(alloc, " ", u64::from(status))?;
    line.push_all(rest.as_str().as_bytes())?;
    Ok(line)
}

/// Writes a line.
fn write_line<E: Sink>(err: &mut E, line: &[u8]) -> Told
    ensures line { WritesLine line.now
        (sink_view (E.octets err.old) (E.faults err.old)) (sink_view (E.octets err.new) (E.faults err.new)) result }
    ensures count { E.faults err.old ≤ E.faults err.new }
{
    match write_whole(err, line) {
        Ok(()) => Told::Whole,
        Err(OutStop::Fault) => Told::Fault,
        Err(OutStop::NoMemory) => Told::NoMemory,
    }
}
