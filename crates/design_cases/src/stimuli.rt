//! Stimuli.

use crate::escapes::{add_part, octets_of, written};
use crate::types::refusal_text;
use esi_base::{NoMemory, Octets, Place};
use esi_text::{Step, read_stimulus};
use small_text::push_hex;
use std::alloc::Global;

/// How many steps and cycles a stimulus has, or its refusal.
pub fn answer(alloc: Global, text: &str) -> Result<Option<String>, NoMemory> {
    let Some(octets) = octets_of(alloc, text)? else {
        return Ok(None);
    };
    match read_stimulus(alloc, octets.as_slice()) {
        Ok(stimulus) => {
            let steps = stimulus.steps.len();
            let mut cycles: u32 = 0;
            for step in stimulus.steps.as_slice() {
                cycles = cycles.saturating_add(step.cycles());
            }
            Ok(Some(format!(in alloc; "{steps} steps, {cycles} cycles")?))
        }
        Err(stop) => Ok(Some(refusal_text(alloc, stop)?)),
    }
}

/// The steps of a stimulus with their places.
pub fn steps(alloc: Global, text: &str) -> Result<Option<String>, NoMemory> {
    let Some(octets) = octets_of(alloc, text)? else {
        return Ok(None);
    };
    let stimulus = match read_stimulus(alloc, octets.as_slice()) {
        Ok(stimulus) => stimulus,
        Err(stop) => return Ok(Some(refusal_text(alloc, stop)?)),
    };
    let mut out = String::new(alloc);
    for step in stimulus.steps.as_slice() {
        add_part(&mut out, step_text(alloc, step)?.as_str())?;
    }
    Ok(Some(out))
}

/// A step, as `put in@3:5 05@3:8;`.
fn step_text(alloc: Global, step: &Step) -> Result<String, NoMemory> {
    match step {
        Step::Put {
            name,
            octets,
            place,
            octets_place,
        } => {
            let name = placed(alloc, name.as_slice(), place)?;
            let mut hex = Octets::new(alloc);
            push_hex(&mut hex, octets.as_slice())?;
            let octets = placed(alloc, hex.as_slice(), octets_place)?;
            Ok(format!(in alloc; "put {name} {octets};")?)
        }
        Step::Ready { name, on, place } => {
            let name = placed(alloc, name.as_slice(), place)?;
            let on = if *on { 1 } else { 0 };
            Ok(format!(in alloc; "ready {name} {on};")?)
        }
        Step::Run { cycles } => Ok(format!(in alloc; "run {cycles};")?),
    }
}

/// A text with its place.
fn placed(alloc: Global, text: &[u8], place: &Place) -> Result<String, NoMemory> {
    let text = written(alloc, text)?;
    let line = place.line;
    let column = place.column;
    Ok(format!(in alloc; "{text}@{line}:{column}")?)
}
