//! A script is read line by line.
ghost use Rattle.std.specs.Prelude.{◌≡◌, ◌<◌, ◌≤◌, [], length, IfOk, OnOk};
ghost use Rattle.esi_base.specs.Answers.{AnswersAs, Reads, IfRefused};
ghost use Rattle.esi_base.specs.declared.stop.Stop.TheVariants.{Refused};
ghost use Rattle.small_text.specs.Lines.{counting_lines};
ghost use Rattle.line_rules.specs.Shapes.{alone, with_two};
ghost use Rattle.line_rules.specs.TextRules.{IsText, FirstBreak, steps_from, steps_of, too_long_refusal};
ghost use Rattle.script_text.specs.ScriptLines.{after_step, attach_form, form_of, is_attached as is_attached_to, script_rules, send_form};
ghost use Rattle.script_text.specs.ScriptLines.ScriptForm.{miscounted, attaching, attaching_with, sending, sending_with, expecting, listing};
ghost use Rattle.script_text.specs.ScriptReading.{form_means};
ghost use Rattle.script_text.specs.RuleNumbers.{rule_number};

use crate::earlier::Earlier;
use crate::limits::{
    LARGEST_COUNT, LARGEST_STATUS, LONGEST_NAME, LONGEST_SCRIPT, SCRIPT_ATTACHES, SCRIPT_LINES,
};
use crate::rule::ScriptRule;
use crate::step::{Script, ScriptStep};
use esi_base::{List, NoMemory, Octets, Place, Refusal, Stop};
use line_rules::{is_word, refused_at};
use small_text::{Line, Lines, Part, read_number, read_octets};
use std::alloc::Global;

/// Reads a script. A text above `LONGEST_SCRIPT` is refused by `TooLong` at 1:1; any other at the first
/// line that breaks a rule, there at the smallest column, and at one column by the rule of the smallest
/// number:
///
/// - `UnknownWord` at the line's first part, where it is no word of a script, and at the part before a
///   status that is not `status`;
/// - `PartCount` at the line's first part, where not as many parts are after it as the word allows;
/// - `AttachAfterSend` there, where an `attach` comes after a `send`;
/// - `PastLimit` there, where with this line more than `SCRIPT_LINES` lines count, or more than
///   `SCRIPT_ATTACHES` attach;
/// - `NotAttached` at the name of an `expect` that no line before attached;
/// - `PastLimit` at a name of more than `LONGEST_NAME` octets;
/// - `BadPart` at octets, a status or a count that are none.
pub fn read_script(alloc: Global, text: &[u8]) -> Result<Script, Stop>
    ensures reads { AnswersAs (λ script. script.steps) (steps_of script_rules text.now) result }

    // It is read exactly where it is a script, and then as that one.
    ensures found { IfOk result (λ script. IsText script_rules text.now script.steps) }
    ensures whole { (script : Script) → IsText script_rules text.now script.steps → Reads (Ok script) result }

    // It is refused exactly where a line breaks a rule, at the first break of the first such line.
    ensures refused { length text.now ≤ LONGEST_SCRIPT → IfRefused result (FirstBreak script_rules [] (counting_lines text.now)) }
    ensures broken { length text.now ≤ LONGEST_SCRIPT → (refusal : Refusal) →
        FirstBreak script_rules [] (counting_lines text.now) refusal → Reads (Err refusal) result }

    // Above the limit it is refused before all else, and with that number nowhere else.
    ensures too_long { LONGEST_SCRIPT < length text.now → Reads (Err (too_long_refusal script_rules)) result }
    ensures only_too_long { IfRefused result (λ refusal. refusal.number ≡ rule_number ScriptRule.TooLong →
        LONGEST_SCRIPT < length text.now) }
{
    read_text(alloc, text)
}

/// Reads a whole text.
#[tactic(auto, unfolding(line_rules::specs::TextRules::steps_of))]
fn read_text(alloc: Global, text: &[u8]) -> Result<Script, Stop>
    ensures { AnswersAs (λ script. script.steps) (steps_of script_rules text.now) result }
{
    if text.len() > LONGEST_SCRIPT {
        return Err(refuse(ScriptRule::TooLong, Place { line: 1, column: 1 }));
    }
    let steps = read_steps(alloc, Lines::new(text))?;
    Ok(Script { steps })
}

/// Reads the steps of all lines.
fn read_steps(alloc: Global, mut lines: Lines<'_>) -> Result<List<ScriptStep>, Stop>
    ensures { Reads (steps_from script_rules [] lines.entry) result }
{
    let mut earlier = Earlier {
        names: List::new(alloc),
        sent: false,
    };
    let mut steps = List::new(alloc);
    while let Some(line) = lines.next_line() {
        let step = read_step(alloc, line, &earlier, steps.len())?;
        note_step(alloc, &mut earlier, &step)?;
        steps.add(step)?;
    }
    Ok(steps)
}

/// Notes what a step adds to what the lines before it said.
fn note_step(alloc: Global, earlier: &mut Earlier, step: &ScriptStep) -> Result<(), NoMemory>
    ensures { OnOk result (earlier.new ≡ after_step earlier.old step.now) }
{
    match step {
        ScriptStep::Attach { name, .. } => {
            let copy = List::from_slice(alloc, name.as_slice())?;
            earlier.names.add(copy)?;
        }
        ScriptStep::Send { .. } => earlier.sent = true,
        ScriptStep::Expect { .. } | ScriptStep::Listing => {}
    }
    Ok(())
}

/// Whether a name was attached.
fn is_attached(names: &List<Octets>, name: &[u8]) -> bool
    ensures { result ≡ is_attached_to names.now name.now }
{
    names
        .as_slice()
        .iter()
        .any(|other| other.as_slice() == name)
}

/// Reads the step of a line, after what the lines before it said and after so many of them.
fn read_step(
    alloc: Global,
    line: Line<'_>,
    earlier: &Earlier,
    count: usize,
) -> Result<ScriptStep, Stop>
    ensures { Reads (form_means earlier.now count line.entry (form_of line.entry)) result }
{
    if is_word(line.word(), b"attach") {
        read_attach(alloc, line, earlier, count)
    } else if is_word(line.word(), b"send") {
        read_send(alloc, line, earlier, count)
    } else if is_word(line.word(), b"expect") {
        read_expect(alloc, line, earlier, count)
    } else if is_word(line.word(), b"list") {
        read_list(line, earlier, count)
    } else {
        Err(refuse(ScriptRule::UnknownWord, line.place(line.word())))
    }
}

/// Reads the rest of an `attach` line.
fn read_attach(
    alloc: Global,
    mut line: Line<'_>,
    earlier: &Earlier,
    count: usize,
) -> Result<ScriptStep, Stop>
    ensures { Reads (form_means earlier.now count line.entry (attach_form line.entry.others)) result }
{
    let word = line.place(line.word());
    let name = line.next_part().ok_or(refuse(ScriptRule::PartCount, word))?;
    match line.next_part() {
        None => attach_plainly(alloc, &line, &name, earlier, count),
        Some(given) => {
            let digits = line.next_part().ok_or(refuse(ScriptRule::PartCount, word))?;
            if line.next_part().is_some() {
                return Err(refuse(ScriptRule::PartCount, word));
            }
            attach_with(alloc, &line, &name, &given, &digits, earlier, count)
        }
    }
}

/// The step of an `attach` line with a name alone.
fn attach_plainly(
    alloc: Global,
    line: &Line<'_>,
    name: &Part<'_>,
    earlier: &Earlier,
    count: usize,
) -> Result<ScriptStep, Stop>
    ensures { Reads (form_means earlier.now count line.now (attaching name.now)) result }
{
    let word = line.place(line.word());
    if earlier.sent {
        return Err(refuse(ScriptRule::AttachAfterSend, word));
    }
    if count >= SCRIPT_LINES {
        return Err(refuse(ScriptRule::PastLimit, word));
    }
    if earlier.names.len() >= SCRIPT_ATTACHES {
        return Err(refuse(ScriptRule::PastLimit, word));
    }
    if name.octets().len() > LONGEST_NAME {
        return Err(refuse(ScriptRule::PastLimit, line.place(name)));
    }
    Ok(ScriptStep::Attach {
        name: List::from_slice(alloc, name.octets())?,
        status: 0,
    })
}

/// The step of an `attach` line with a status.
fn attach_with(
    alloc: Global,
    line: &Line<'_>,
    name: &Part<'_>,
    given: &Part<'_>,
    digits: &Part<'_>,
    earlier: &Earlier,
    count: usize,
) -> Result<ScriptStep, Stop>
    ensures { Reads (form_means earlier.now count line.now (attaching_with name.now given.now digits.now)) result }
{
    let word = line.place(line.word());
    if earlier.sent {
        return Err(refuse(ScriptRule::AttachAfterSend, word));
    }
    if count >= SCRIPT_LINES {
        return Err(refuse(ScriptRule::PastLimit, word));
    }
    if earlier.names.len() >= SCRIPT_ATTACHES {
        return Err(refuse(ScriptRule::PastLimit, word));
    }
    if name.octets().len() > LONGEST_NAME {
        return Err(refuse(ScriptRule::PastLimit, line.place(name)));
    }
    if !is_word(given, b"status") {
        return Err(refuse(ScriptRule::UnknownWord, line.place(given)));
    }
    let status = read_number(digits.octets(), LARGEST_STATUS).ok_or(refuse(
        ScriptRule::BadPart,
        line.place(digits),
    ))?;
    Ok(ScriptStep::Attach {
        name: List::from_slice(alloc, name.octets())?,
        status: status as u8,
    })
}

/// Reads the rest of a `send` line.
fn read_send(
    alloc: Global,
    mut line: Line<'_>,
    earlier: &Earlier,
    count: usize,
) -> Result<ScriptStep, Stop>
    ensures { Reads (form_means earlier.now count line.entry (send_form line.entry.others)) result }
{
    let word = line.place(line.word());
    let name = line.next_part().ok_or(refuse(ScriptRule::PartCount, word))?;
    let value = line.next_part().ok_or(refuse(ScriptRule::PartCount, word))?;
    match line.next_part() {
        None => send_plainly(alloc, &line, &name, &value, earlier, count),
        Some(given) => {
            let digits = line.next_part().ok_or(refuse(ScriptRule::PartCount, word))?;
            if line.next_part().is_some() {
                return Err(refuse(ScriptRule::PartCount, word));
            }
            send_with(alloc, &line, &name, &value, &given, &digits, earlier, count)
        }
    }
}

/// The step of a `send` line with a name and octets alone.
fn send_plainly(
    alloc: Global,
    line: &Line<'_>,
    name: &Part<'_>,
    value: &Part<'_>,
    earlier: &Earlier,
    count: usize,
) -> Result<ScriptStep, Stop>
    ensures { Reads (form_means earlier.now count line.now (sending name.now value.now)) result }
{
    if count >= SCRIPT_LINES {
        return Err(refuse(ScriptRule::PastLimit, line.place(line.word())));
    }
    if name.octets().len() > LONGEST_NAME {
        return Err(refuse(ScriptRule::PastLimit, line.place(name)));
    }
    let octets = read_octets(alloc, value.octets())?.ok_or(refuse(
        ScriptRule::BadPart,
        line.place(value),
    ))?;
    Ok(ScriptStep::Send {
        name: List::from_slice(alloc, name.octets())?,
        octets,
        status: 0,
    })
}

/// The step of a `send` line with a status.
#[allow(clippy::too_many_arguments)]
fn send_with(
    alloc: Global,
    line: &Line<'_>,
    name: &Part<'_>,
    value: &Part<'_>,
    given: &Part<'_>,
    digits: &Part<'_>,
    earlier: &Earlier,
    count: usize,
) -> Result<ScriptStep, Stop>
    ensures { Reads (form_means earlier.now count line.now (sending_with name.now value.now given.now digits.now)) result }
{
    if count >= SCRIPT_LINES {
        return Err(refuse(ScriptRule::PastLimit, line.place(line.word())));
    }
    if name.octets().len() > LONGEST_NAME {
        return Err(refuse(ScriptRule::PastLimit, line.place(name)));
    }
    let octets = read_octets(alloc, value.octets())?.ok_or(refuse(
        ScriptRule::BadPart,
        line.place(value),
    ))?;
    if !is_word(given, b"status") {
        return Err(refuse(ScriptRule::UnknownWord, line.place(given)));
    }
    let status = read_number(digits.octets(), LARGEST_STATUS).ok_or(refuse(
        ScriptRule::BadPart,
        line.place(digits),
    ))?;
    Ok(ScriptStep::Send {
        name: List::from_slice(alloc, name.octets())?,
        octets,
        status: status as u8,
    })
}

/// Reads the rest of an `expect` line.
fn read_expect(
    alloc: Global,
    mut line: Line<'_>,
    earlier: &Earlier,
    count: usize,
) -> Result<ScriptStep, Stop>
    ensures { Reads (form_means earlier.now count line.entry (with_two miscounted expecting line.entry.others)) result }
{
    let word = line.place(line.word());
    let name = line.next_part().ok_or(refuse(ScriptRule::PartCount, word))?;
    let digits = line.next_part().ok_or(refuse(ScriptRule::PartCount, word))?;
    if line.next_part().is_some() {
        return Err(refuse(ScriptRule::PartCount, word));
    }
    if count >= SCRIPT_LINES {
        return Err(refuse(ScriptRule::PastLimit, word));
    }
    if !is_attached(&earlier.names, name.octets()) {
        return Err(refuse(ScriptRule::NotAttached, line.place(&name)));
    }
    if name.octets().len() > LONGEST_NAME {
        return Err(refuse(ScriptRule::PastLimit, line.place(&name)));
    }
    let values = read_number(digits.octets(), LARGEST_COUNT).ok_or(refuse(
        ScriptRule::BadPart,
        line.place(&digits),
    ))?;
    Ok(ScriptStep::Expect {
        name: List::from_slice(alloc, name.octets())?,
        count: values as u32,
    })
}

/// Reads the rest of a `list` line.
fn read_list(mut line: Line<'_>, earlier: &Earlier, count: usize) -> Result<ScriptStep, Stop>
    ensures { Reads (form_means earlier.now count line.entry (alone miscounted listing line.entry.others)) result }
{
    let word = line.place(line.word());
    if line.next_part().is_some() {
        return Err(refuse(ScriptRule::PartCount, word));
    }
    if count >= SCRIPT_LINES {
        return Err(refuse(ScriptRule::PastLimit, word));
    }
    Ok(ScriptStep::Listing)
}

/// The refusal by a rule that is broken at a place.
fn refuse(rule: ScriptRule, place: Place) -> Stop
    ensures { result ≡ Refused (record { number = rule_number rule; place = place }) }
{
    refused_at(rule.number(), place)
}
