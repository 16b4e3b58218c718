//! A stimulus is read line by line.
ghost use Rattle.std.specs.Prelude.{◌≡◌, ◌<◌, ◌≤◌, length, IfOk};
ghost use Rattle.std.specs.Str.{bytes_eq};
ghost use Rattle.esi_base.specs.Answers.{Reads, IfRefused};
ghost use Rattle.esi_base.specs.declared.stop.Stop.TheVariants.{Refused};
ghost use Rattle.small_text.specs.Lines.{counting_lines};
ghost use Rattle.stimulus_text.specs.LineRules.{IsStimulus, FirstBreak};
ghost use Rattle.stimulus_text.specs.RuleNumbers.{rule_number};
ghost use Rattle.stimulus_text.specs.Stimulus.{switch_of, put_step, ready_step, run_step, step_of, steps_of, stimulus_of, too_long_refusal};

use crate::limits::{LARGEST_RUN, LONGEST_STIMULUS, STIMULUS_CYCLES, STIMULUS_LINES};
use crate::rule::StimulusRule;
use crate::step::{Step, Stimulus};
use esi_base::{List, Place, Refusal, Stop};
use small_text::{Line, Lines, Part, read_number, read_octets};
use std::alloc::Global;

/// Reads a stimulus. A text above `LONGEST_STIMULUS` is refused by `TooLong` at 1:1; any other at the
/// first line that breaks a rule, there at the smallest column, and at one column by the rule of the
/// smallest number:
///
/// - `UnknownWord` at the line's first part, where it is no word of a stimulus;
/// - `PartCount` there, where not as many parts are after it as the word needs;
/// - `BadPart` at octets, a switch or a number that are none;
/// - `PastLimit` at the line's first part, where with this line more than `STIMULUS_LINES` lines count,
///   or more than `STIMULUS_CYCLES` cycles are run.
pub fn read_stimulus(alloc: Global, text: &[u8]) -> Result<Stimulus, Stop>
    ensures reads { Reads (stimulus_of text.now) result }

    // It is read exactly where it is a stimulus, and then as that one.
    ensures found { IfOk result (IsStimulus text.now) }
    ensures whole { (stimulus : Stimulus) → IsStimulus text.now stimulus → Reads (Ok stimulus) result }

    // It is refused exactly where a line breaks a rule, at the first break of the first such line.
    ensures refused { length text.now ≤ LONGEST_STIMULUS → IfRefused result (FirstBreak (counting_lines text.now)) }
    ensures broken { length text.now ≤ LONGEST_STIMULUS → (refusal : Refusal) →
        FirstBreak (counting_lines text.now) refusal → Reads (Err refusal) result }

    // Above the limit it is refused before all else, and with that number nowhere else.
    ensures too_long { LONGEST_STIMULUS < length text.now → Reads (Err too_long_refusal) result }
    ensures only_too_long { IfRefused result (λ refusal. refusal.number ≡ rule_number StimulusRule.TooLong →
        LONGEST_STIMULUS < length text.now) }
{
    read_text(alloc, text)
}

/// Reads a whole text.
#[tactic(auto, unfolding(crate::specs::Stimulus::stimulus_of))]
fn read_text(alloc: Global, text: &[u8]) -> Result<Stimulus, Stop>
    ensures { Reads (stimulus_of text.now) result }
{
    if text.len() > LONGEST_STIMULUS {
        return Err(refuse(StimulusRule::TooLong, Place { line: 1, column: 1 }));
    }
    let steps = read_steps(alloc, Lines::new(text))?;
    Ok(Stimulus { steps })
}

/// Reads the steps of all lines.
fn read_steps(alloc: Global, mut lines: Lines<'_>) -> Result<List<Step>, Stop>
    ensures { Reads (steps_of 0 0 lines.entry) result }
{
    let mut count: u32 = 0;
    let mut cycles: u64 = 0;
    let mut steps = List::new(alloc);
    while let Some(line) = lines.next_line() {
        let step = read_step(alloc, line, count, cycles)?;
        count += 1;
        cycles += u64::from(step.cycles());
        steps.add(step)?;
    }
    Ok(steps)
}

/// Reads the step of a line, after so many lines and cycles.
#[tactic(auto, unfolding(crate::specs::Stimulus::step_of))]
fn read_step(alloc: Global, line: Line<'_>, lines: u32, cycles: u64) -> Result<Step, Stop>
    requires { cycles ≤ STIMULUS_CYCLES }
    ensures { Reads (step_of lines cycles line.entry) result }
{
    if is_word(line.word(), b"put") {
        read_put(alloc, line, lines)
    } else if is_word(line.word(), b"ready") {
        read_ready(alloc, line, lines)
    } else if is_word(line.word(), b"run") {
        read_run(line, lines, cycles)
    } else {
        Err(refuse(StimulusRule::UnknownWord, line.place(line.word())))
    }
}

/// Reads the rest of a `put` line.
fn read_put(alloc: Global, mut line: Line<'_>, lines: u32) -> Result<Step, Stop>
    ensures { Reads (put_step lines line.entry line.entry.others) result }
{
    let word = line.place(line.word());
    let name = line
        .next_part()
        .ok_or(refuse(StimulusRule::PartCount, word))?;
    let digits = line
        .next_part()
        .ok_or(refuse(StimulusRule::PartCount, word))?;
    if line.next_part().is_some() {
        return Err(refuse(StimulusRule::PartCount, word));
    }
    if lines >= STIMULUS_LINES {
        return Err(refuse(StimulusRule::PastLimit, word));
    }
    let octets_place = line.place(&digits);
    let octets = read_octets(alloc, digits.octets())?.ok_or(refuse(
        StimulusRule::BadPart,
        octets_place,
    ))?;
    Ok(Step::Put {
        name: List::from_slice(alloc, name.octets())?,
        octets,
        place: line.place(&name),
        octets_place,
    })
}

/// Reads the rest of a `ready` line.
fn read_ready(alloc: Global, mut line: Line<'_>, lines: u32) -> Result<Step, Stop>
    ensures { Reads (ready_step lines line.entry line.entry.others) result }
{
    let word = line.place(line.word());
    let name = line
        .next_part()
        .ok_or(refuse(StimulusRule::PartCount, word))?;
    let digit = line
        .next_part()
        .ok_or(refuse(StimulusRule::PartCount, word))?;
    if line.next_part().is_some() {
        return Err(refuse(StimulusRule::PartCount, word));
    }
    if lines >= STIMULUS_LINES {
        return Err(refuse(StimulusRule::PastLimit, word));
    }
    let on = switch(&digit).ok_or(refuse(StimulusRule::BadPart, line.place(&digit)))?;
    Ok(Step::Ready {
        name: List::from_slice(alloc, name.octets())?,
        on,
        place: line.place(&name),
    })
}

/// What a switch is set to: `1` is on and `0` is off.
fn switch(part: &Part<'_>) -> Option<bool>
    ensures { result ≡ switch_of part.now.octets }
{
    if is_word(part, b"1") {
        Some(true)
    } else if is_word(part, b"0") {
        Some(false)
    } else {
        None
    }
}

/// Reads the rest of a `run` line.
fn read_run(mut line: Line<'_>, lines: u32, cycles: u64) -> Result<Step, Stop>
    requires { cycles ≤ STIMULUS_CYCLES }
    ensures { Reads (run_step lines cycles line.entry line.entry.others) result }
{
    let word = line.place(line.word());
    let digits = line
        .next_part()
        .ok_or(refuse(StimulusRule::PartCount, word))?;
    if line.next_part().is_some() {
        return Err(refuse(StimulusRule::PartCount, word));
    }
    if lines >= STIMULUS_LINES {
        return Err(refuse(StimulusRule::PastLimit, word));
    }
    let more = read_number(digits.octets(), LARGEST_RUN).ok_or(refuse(
        StimulusRule::BadPart,
        line.place(&digits),
    ))?;
    if cycles + more > STIMULUS_CYCLES {
        return Err(refuse(StimulusRule::PastLimit, word));
    }
    Ok(Step::Run {
        cycles: more as u32,
    })
}

/// Whether a part is a word.
fn is_word(part: &Part<'_>, word: &[u8]) -> bool
    ensures { result ≡ bytes_eq part.now.octets word.now }
{
    part.octets() == word
}

/// The refusal by a rule that is broken at a place.
fn refuse(rule: StimulusRule, place: Place) -> Stop
    ensures { result ≡ Refused (record { number = rule_number rule; place = place }) }
{
    Stop::Refused(Refusal {
        number: rule.number(),
        place,
    })
}
