//! A schedule is read line by line.
ghost use Rattle.std.specs.Prelude.{◌≡◌, ◌+◌, ◌<◌, ◌≤◌, [], length, IfOk};
ghost use Rattle.esi_base.specs.Answers.{AnswersAs, Reads, IfRefused};
ghost use Rattle.esi_base.specs.declared.stop.Stop.TheVariants.{Refused};
ghost use Rattle.small_text.specs.Lines.{counting_lines};
ghost use Rattle.line_rules.specs.Shapes.{alone, with_one};
ghost use Rattle.line_rules.specs.TextRules.{IsText, FirstBreak, steps_from, steps_of, too_long_refusal};
ghost use Rattle.schedule_text.specs.ScheduleLines.{form_of, rounds_of, schedule_rules};
ghost use Rattle.schedule_text.specs.ScheduleLines.ScheduleForm.{miscounted, for_client, for_server, moving_up, moving_down, rounding};
ghost use Rattle.schedule_text.specs.ScheduleReading.{form_means};
ghost use Rattle.schedule_text.specs.RuleNumbers.{rule_number};

use crate::limits::{
    LARGEST_MOVE, LARGEST_ROUND, LONGEST_SCHEDULE, SCHEDULE_LINES, SCHEDULE_ROUNDS,
};
use crate::rule::ScheduleRule;
use crate::step::{Move, Schedule};
use esi_base::{List, Place, Refusal, Stop};
use line_rules::{is_word, refused_at};
use small_text::{Line, Lines, read_number};
use std::alloc::Global;

/// Reads a schedule. A text above `LONGEST_SCHEDULE` is refused by `TooLong` at 1:1; any other at the
/// first line that breaks a rule, there at the smallest column, and at one column by the rule of the
/// smallest number:
///
/// - `UnknownWord` at the line's first part, where it is no word of a schedule;
/// - `PartCount` there, where not as many parts are after it as the word needs;
/// - `BadPart` at a number that is none;
/// - `PastLimit` at the line's first part, where with this line more than `SCHEDULE_LINES` lines count,
///   or more than `SCHEDULE_ROUNDS` rounds are asked for.
pub fn read_schedule(alloc: Global, text: &[u8]) -> Result<Schedule, Stop>
    ensures reads { AnswersAs (λ schedule. schedule.steps) (steps_of schedule_rules text.now) result }

    // It is read exactly where it is a schedule, and then as that one.
    ensures found { IfOk result (λ schedule. IsText schedule_rules text.now schedule.steps) }
    ensures whole { (schedule : Schedule) → IsText schedule_rules text.now schedule.steps → Reads (Ok schedule) result }

    // It is refused exactly where a line breaks a rule, at the first break of the first such line.
    ensures refused { length text.now ≤ LONGEST_SCHEDULE → IfRefused result (FirstBreak schedule_rules [] (counting_lines text.now)) }
    ensures broken { length text.now ≤ LONGEST_SCHEDULE → (refusal : Refusal) →
        FirstBreak schedule_rules [] (counting_lines text.now) refusal → Reads (Err refusal) result }

    // Above the limit it is refused before all else, and with that number nowhere else.
    ensures too_long { LONGEST_SCHEDULE < length text.now → Reads (Err (too_long_refusal schedule_rules)) result }
    ensures only_too_long { IfRefused result (λ refusal. refusal.number ≡ rule_number ScheduleRule.TooLong →
        LONGEST_SCHEDULE < length text.now) }
{
    read_text(alloc, text)
}

/// Reads a whole text.
#[tactic(auto, unfolding(line_rules::specs::TextRules::steps_of))]
fn read_text(alloc: Global, text: &[u8]) -> Result<Schedule, Stop>
    ensures { AnswersAs (λ schedule. schedule.steps) (steps_of schedule_rules text.now) result }
{
    if text.len() > LONGEST_SCHEDULE {
        return Err(refuse(ScheduleRule::TooLong, Place { line: 1, column: 1 }));
    }
    let steps = read_steps(alloc, Lines::new(text))?;
    Ok(Schedule { steps })
}

/// Reads the moves of all lines.
fn read_steps(alloc: Global, mut lines: Lines<'_>) -> Result<List<Move>, Stop>
    ensures { Reads (steps_from schedule_rules [] lines.entry) result }
{
    let mut rounds: u64 = 0;
    let mut steps = List::new(alloc);
    while let Some(line) = lines.next_line() {
        let step = read_step(line, rounds, steps.len())?;
        rounds += u64::from(step.rounds());
        steps.add(step)?;
    }
    Ok(steps)
}

/// Reads the move of a line, after so many rounds and lines.
fn read_step(line: Line<'_>, rounds: u64, count: usize) -> Result<Move, Stop>
    requires { rounds ≤ SCHEDULE_ROUNDS }
    ensures reads { Reads (form_means rounds count line.entry (form_of line.entry)) result }
    ensures within { IfOk result (λ step. rounds + rounds_of step ≤ SCHEDULE_ROUNDS) }
{
    if is_word(line.word(), b"client") {
        read_client(line, rounds, count)
    } else if is_word(line.word(), b"server") {
        read_server(line, rounds, count)
    } else if is_word(line.word(), b"up") {
        read_up(line, rounds, count)
    } else if is_word(line.word(), b"down") {
        read_down(line, rounds, count)
    } else if is_word(line.word(), b"round") {
        read_round(line, rounds, count)
    } else {
        Err(refuse(ScheduleRule::UnknownWord, line.place(line.word())))
    }
}

/// Reads the rest of a `client` line.
fn read_client(mut line: Line<'_>, rounds: u64, count: usize) -> Result<Move, Stop>
    requires { rounds ≤ SCHEDULE_ROUNDS }
    ensures reads { Reads (form_means rounds count line.entry (alone miscounted for_client line.entry.others)) result }
    ensures within { IfOk result (λ step. rounds + rounds_of step ≤ SCHEDULE_ROUNDS) }
{
    let word = line.place(line.word());
    if line.next_part().is_some() {
        return Err(refuse(ScheduleRule::PartCount, word));
    }
    if count >= SCHEDULE_LINES {
        return Err(refuse(ScheduleRule::PastLimit, word));
    }
    Ok(Move::Client)
}

/// Reads the rest of a `server` line.
fn read_server(mut line: Line<'_>, rounds: u64, count: usize) -> Result<Move, Stop>
    requires { rounds ≤ SCHEDULE_ROUNDS }
    ensures reads { Reads (form_means rounds count line.entry (alone miscounted for_server line.entry.others)) result }
    ensures within { IfOk result (λ step. rounds + rounds_of step ≤ SCHEDULE_ROUNDS) }
{
    let word = line.place(line.word());
    if line.next_part().is_some() {
        return Err(refuse(ScheduleRule::PartCount, word));
    }
    if count >= SCHEDULE_LINES {
        return Err(refuse(ScheduleRule::PastLimit, word));
    }
    Ok(Move::Server)
}

/// Reads the rest of a `up` line.
fn read_up(mut line: Line<'_>, rounds: u64, count: usize) -> Result<Move, Stop>
    requires { rounds ≤ SCHEDULE_ROUNDS }
    ensures reads { Reads (form_means rounds count line.entry (with_one miscounted moving_up line.entry.others)) result }
    ensures within { IfOk result (λ step. rounds + rounds_of step ≤ SCHEDULE_ROUNDS) }
{
    let word = line.place(line.word());
    let digits = line
        .next_part()
        .ok_or(refuse(ScheduleRule::PartCount, word))?;
    if line.next_part().is_some() {
        return Err(refuse(ScheduleRule::PartCount, word));
    }
    if count >= SCHEDULE_LINES {
        return Err(refuse(ScheduleRule::PastLimit, word));
    }
    let octets = read_number(digits.octets(), LARGEST_MOVE).ok_or(refuse(
        ScheduleRule::BadPart,
        line.place(&digits),
    ))?;
    Ok(Move::Up { octets })
}

/// Reads the rest of a `down` line.
fn read_down(mut line: Line<'_>, rounds: u64, count: usize) -> Result<Move, Stop>
    requires { rounds ≤ SCHEDULE_ROUNDS }
    ensures reads { Reads (form_means rounds count line.entry (with_one miscounted moving_down line.entry.others)) result }
    ensures within { IfOk result (λ step. rounds + rounds_of step ≤ SCHEDULE_ROUNDS) }
{
    let word = line.place(line.word());
    let digits = line
        .next_part()
        .ok_or(refuse(ScheduleRule::PartCount, word))?;
    if line.next_part().is_some() {
        return Err(refuse(ScheduleRule::PartCount, word));
    }
    if count >= SCHEDULE_LINES {
        return Err(refuse(ScheduleRule::PastLimit, word));
    }
    let octets = read_number(digits.octets(), LARGEST_MOVE).ok_or(refuse(
        ScheduleRule::BadPart,
        line.place(&digits),
    ))?;
    Ok(Move::Down { octets })
}

/// Reads the rest of a `round` line.
fn read_round(mut line: Line<'_>, rounds: u64, count: usize) -> Result<Move, Stop>
    requires { rounds ≤ SCHEDULE_ROUNDS }
    ensures reads { Reads (form_means rounds count line.entry (with_one miscounted rounding line.entry.others)) result }
    ensures within { IfOk result (λ step. rounds + rounds_of step ≤ SCHEDULE_ROUNDS) }
{
    let word = line.place(line.word());
    let digits = line
        .next_part()
        .ok_or(refuse(ScheduleRule::PartCount, word))?;
    if line.next_part().is_some() {
        return Err(refuse(ScheduleRule::PartCount, word));
    }
    if count >= SCHEDULE_LINES {
        return Err(refuse(ScheduleRule::PastLimit, word));
    }
    let more = read_number(digits.octets(), LARGEST_ROUND).ok_or(refuse(
        ScheduleRule::BadPart,
        line.place(&digits),
    ))?;
    if rounds + more > SCHEDULE_ROUNDS {
        return Err(refuse(ScheduleRule::PastLimit, word));
    }
    Ok(Move::Round { count: more as u32 })
}

/// The refusal by a rule that is broken at a place.
fn refuse(rule: ScheduleRule, place: Place) -> Stop
    ensures { result ≡ Refused (record { number = rule_number rule; place = place }) }
{
    refused_at(rule.number(), place)
}
