//! A log is read line by line.
ghost use Rattle.std.specs.Prelude.{◌≡◌, ◌<◌, ◌≤◌, [], length, IfOk, OnOk};
ghost use Rattle.esi_base.specs.Answers.{AnswersAs, Reads, IfRefused};
ghost use Rattle.esi_base.specs.declared.stop.Stop.TheVariants.{Refused};
ghost use Rattle.small_text.specs.Lines.{counting_lines};
ghost use Rattle.line_rules.specs.Shapes.{alone, with_one, with_two};
ghost use Rattle.line_rules.specs.TextRules.{IsText, FirstBreak, steps_from, steps_of, too_long_refusal};
ghost use Rattle.link_log.specs.LogLines.{after_step, form_of, conn_of, is_open as is_open_in, log_rules};
ghost use Rattle.link_log.specs.LogLines.LogForm.{miscounted, opening, bringing, writing, closing, idling, failing, rooming};
ghost use Rattle.link_log.specs.LogReading.{form_means, open_number};
ghost use Rattle.link_log.specs.RuleNumbers.{rule_number};

use crate::limits::{LARGEST_CONN, LARGEST_ROOM, LOG_LINES, LOG_OCTETS, LONGEST_LOG};
use crate::rule::LogRule;
use crate::step::{Log, LogStep};
use esi_base::{List, NoMemory, Place, Refusal, Stop};
use line_rules::{is_word, refused_at};
use small_text::{Line, Lines, Part, read_number, read_octets};
use std::alloc::Global;

/// Reads a log. A text above `LONGEST_LOG` is refused by `TooLong` at 1:1; any other at the first line
/// that breaks a rule, there at the smallest column, and at one column by the rule of the smallest
/// number:
///
/// - `UnknownWord` at the line's first part, where it is no word of a log;
/// - `PartCount` there, where not as many parts are after it as the word needs;
/// - `PastLimit` there, where with this line more than `LOG_LINES` lines count;
/// - `BadPart` at a connection, a room or octets that are none;
/// - `NotOpen` at the connection of an event that is not open, and `NeverOpened` at that of a `room`
///   which was never opened;
/// - `PastLimit` at more than `LOG_OCTETS` octets.
pub fn read_log(alloc: Global, text: &[u8]) -> Result<Log, Stop>
    ensures reads { AnswersAs (λ log. log.steps) (steps_of log_rules text.now) result }

    // It is read exactly where it is a log, and then as that one.
    ensures found { IfOk result (λ log. IsText log_rules text.now log.steps) }
    ensures whole { (log : Log) → IsText log_rules text.now log.steps → Reads (Ok log) result }

    // It is refused exactly where a line breaks a rule, at the first break of the first such line.
    ensures refused { length text.now ≤ LONGEST_LOG → IfRefused result (FirstBreak log_rules [] (counting_lines text.now)) }
    ensures broken { length text.now ≤ LONGEST_LOG → (refusal : Refusal) →
        FirstBreak log_rules [] (counting_lines text.now) refusal → Reads (Err refusal) result }

    // Above the limit it is refused before all else, and with that number nowhere else.
    ensures too_long { LONGEST_LOG < length text.now → Reads (Err (too_long_refusal log_rules)) result }
    ensures only_too_long { IfRefused result (λ refusal. refusal.number ≡ rule_number LogRule.TooLong →
        LONGEST_LOG < length text.now) }
{
    read_text(alloc, text)
}

/// Reads a whole text.
#[tactic(auto, unfolding(line_rules::specs::TextRules::steps_of))]
fn read_text(alloc: Global, text: &[u8]) -> Result<Log, Stop>
    ensures { AnswersAs (λ log. log.steps) (steps_of log_rules text.now) result }
{
    if text.len() > LONGEST_LOG {
        return Err(refuse(LogRule::TooLong, Place { line: 1, column: 1 }));
    }
    let steps = read_steps(alloc, Lines::new(text))?;
    Ok(Log { steps })
}

/// Reads the steps of all lines.
fn read_steps(alloc: Global, mut lines: Lines<'_>) -> Result<List<LogStep>, Stop>
    ensures { Reads (steps_from log_rules [] lines.entry) result }
{
    let mut conns = List::new(alloc);
    let mut steps = List::new(alloc);
    while let Some(line) = lines.next_line() {
        let step = read_step(alloc, line, &conns, steps.len())?;
        note_step(&mut conns, &step)?;
        steps.add(step)?;
    }
    Ok(steps)
}

/// Notes what a step makes of the connections, of which each is open or not.
fn note_step(conns: &mut List<bool>, step: &LogStep) -> Result<(), NoMemory>
    ensures { OnOk result (conns.new ≡ after_step conns.old step.now) }
{
    match step {
        LogStep::Opened => conns.add(true)?,
        LogStep::Closed { conn } => shut(conns, *conn),
        LogStep::Bytes { .. }
        | LogStep::Writable { .. }
        | LogStep::Idle
        | LogStep::Fail
        | LogStep::Room { .. } => {}
    }
    Ok(())
}

/// Notes that a connection is not open.
fn shut(conns: &mut List<bool>, conn: u32)
    ensures { conns.new ≡ after_step conns.old (LogStep.Closed conn) }
{
    if (conn as usize) < conns.len() {
        conns.set(conn as usize, false);
    }
}

/// Whether a connection is open.
fn is_open(conns: &List<bool>, conn: u64) -> bool
    ensures { result ≡ is_open_in conns.now conn }
{
    match conns.get(conn as usize) {
        Some(flag) => *flag,
        None => false,
    }
}

/// Reads the step of a line, with these connections and after so many lines.
fn read_step(
    alloc: Global,
    line: Line<'_>,
    conns: &List<bool>,
    count: usize,
) -> Result<LogStep, Stop>
    ensures { Reads (form_means conns.now count line.entry (form_of line.entry)) result }
{
    if is_word(line.word(), b"opened") {
        read_opened(line, conns, count)
    } else if is_word(line.word(), b"bytes") {
        read_bytes(alloc, line, conns, count)
    } else if is_word(line.word(), b"writable") {
        read_writable(line, conns, count)
    } else if is_word(line.word(), b"closed") {
        read_closed(line, conns, count)
    } else if is_word(line.word(), b"idle") {
        read_idle(line, conns, count)
    } else if is_word(line.word(), b"fail") {
        read_fail(line, conns, count)
    } else if is_word(line.word(), b"room") {
        read_room(line, conns, count)
    } else {
        Err(refuse(LogRule::UnknownWord, line.place(line.word())))
    }
}

/// Reads the rest of a `opened` line.
fn read_opened(mut line: Line<'_>, conns: &List<bool>, count: usize) -> Result<LogStep, Stop>
    ensures { Reads (form_means conns.now count line.entry (alone miscounted opening line.entry.others)) result }
{
    let word = line.place(line.word());
    if line.next_part().is_some() {
        return Err(refuse(LogRule::PartCount, word));
    }
    if count >= LOG_LINES {
        return Err(refuse(LogRule::PastLimit, word));
    }
    Ok(LogStep::Opened)
}

/// Reads the rest of a `bytes` line.
fn read_bytes(
    alloc: Global,
    mut line: Line<'_>,
    conns: &List<bool>,
    count: usize,
) -> Result<LogStep, Stop>
    ensures { Reads (form_means conns.now count line.entry (with_two miscounted bringing line.entry.others)) result }
{
    let word = line.place(line.word());
    let name = line.next_part().ok_or(refuse(LogRule::PartCount, word))?;
    let digits = line.next_part().ok_or(refuse(LogRule::PartCount, word))?;
    if line.next_part().is_some() {
        return Err(refuse(LogRule::PartCount, word));
    }
    if count >= LOG_LINES {
        return Err(refuse(LogRule::PastLimit, word));
    }
    let conn = open_conn(&line, &name, conns)?;
    let place = line.place(&digits);
    let octets = read_octets(alloc, digits.octets())?.ok_or(refuse(LogRule::BadPart, place))?;
    if octets.len() > LOG_OCTETS {
        return Err(refuse(LogRule::PastLimit, place));
    }
    Ok(LogStep::Bytes { conn, octets })
}

/// Reads the rest of a `writable` line.
fn read_writable(mut line: Line<'_>, conns: &List<bool>, count: usize) -> Result<LogStep, Stop>
    ensures { Reads (form_means conns.now count line.entry (with_one miscounted writing line.entry.others)) result }
{
    let word = line.place(line.word());
    let name = line.next_part().ok_or(refuse(LogRule::PartCount, word))?;
    if line.next_part().is_some() {
        return Err(refuse(LogRule::PartCount, word));
    }
    if count >= LOG_LINES {
        return Err(refuse(LogRule::PastLimit, word));
    }
    let conn = open_conn(&line, &name, conns)?;
    Ok(LogStep::Writable { conn })
}

/// Reads the rest of a `closed` line.
fn read_closed(mut line: Line<'_>, conns: &List<bool>, count: usize) -> Result<LogStep, Stop>
    ensures { Reads (form_means conns.now count line.entry (with_one miscounted closing line.entry.others)) result }
{
    let word = line.place(line.word());
    let name = line.next_part().ok_or(refuse(LogRule::PartCount, word))?;
    if line.next_part().is_some() {
        return Err(refuse(LogRule::PartCount, word));
    }
    if count >= LOG_LINES {
        return Err(refuse(LogRule::PastLimit, word));
    }
    let conn = open_conn(&line, &name, conns)?;
    Ok(LogStep::Closed { conn })
}

/// Reads the rest of a `idle` line.
fn read_idle(mut line: Line<'_>, conns: &List<bool>, count: usize) -> Result<LogStep, Stop>
    ensures { Reads (form_means conns.now count line.entry (alone miscounted idling line.entry.others)) result }
{
    let word = line.place(line.word());
    if line.next_part().is_some() {
        return Err(refuse(LogRule::PartCount, word));
    }
    if count >= LOG_LINES {
        return Err(refuse(LogRule::PastLimit, word));
    }
    Ok(LogStep::Idle)
}

/// Reads the rest of a `fail` line.
fn read_fail(mut line: Line<'_>, conns: &List<bool>, count: usize) -> Result<LogStep, Stop>
    ensures { Reads (form_means conns.now count line.entry (alone miscounted failing line.entry.others)) result }
{
    let word = line.place(line.word());
    if line.next_part().is_some() {
        return Err(refuse(LogRule::PartCount, word));
    }
    if count >= LOG_LINES {
        return Err(refuse(LogRule::PastLimit, word));
    }
    Ok(LogStep::Fail)
}

/// Reads the rest of a `room` line.
fn read_room(mut line: Line<'_>, conns: &List<bool>, count: usize) -> Result<LogStep, Stop>
    ensures { Reads (form_means conns.now count line.entry (with_two miscounted rooming line.entry.others)) result }
{
    let word = line.place(line.word());
    let name = line.next_part().ok_or(refuse(LogRule::PartCount, word))?;
    let digits = line.next_part().ok_or(refuse(LogRule::PartCount, word))?;
    if line.next_part().is_some() {
        return Err(refuse(LogRule::PartCount, word));
    }
    if count >= LOG_LINES {
        return Err(refuse(LogRule::PastLimit, word));
    }
    let place = line.place(&name);
    let conn = read_number(name.octets(), LARGEST_CONN).ok_or(refuse(LogRule::BadPart, place))?;
    if conn as usize >= conns.len() {
        return Err(refuse(LogRule::NeverOpened, place));
    }
    let octets = read_number(digits.octets(), LARGEST_ROOM).ok_or(refuse(
        LogRule::BadPart,
        line.place(&digits),
    ))?;
    Ok(LogStep::Room {
        conn: conn as u32,
        octets,
    })
}

/// The number of an open connection.
fn open_conn(line: &Line<'_>, name: &Part<'_>, conns: &List<bool>) -> Result<u32, Stop>
    ensures { Reads (open_number conns.now line.now name.now (conn_of name.now)) result }
{
    let place = line.place(name);
    let conn = read_number(name.octets(), LARGEST_CONN).ok_or(refuse(LogRule::BadPart, place))?;
    if is_open(conns, conn) {
        Ok(conn as u32)
    } else {
        Err(refuse(LogRule::NotOpen, place))
    }
}

/// The refusal by a rule that is broken at a place.
fn refuse(rule: LogRule, place: Place) -> Stop
    ensures { result ≡ Refused (record { number = rule_number rule; place = place }) }
{
    refused_at(rule.number(), place)
}
