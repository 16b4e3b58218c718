//! Designs.

use crate::escapes::{octets_of, written};
use crate::types::refusal_text;
use esi_base::{NoMemory, Stop};
use esi_text::{print_design, read_design};
use std::alloc::Global;

/// The canonical text of a design, `unchanged` where it is the text itself, or the refusal. The canonical
/// text is read and printed again: what that gives is added where it is another text.
pub fn answer(alloc: Global, text: &str) -> Result<Option<String>, NoMemory> {
    let Some(octets) = octets_of(alloc, text)? else {
        return Ok(None);
    };
    let printed = match canonical(alloc, octets.as_slice())? {
        Ok(printed) => printed,
        Err(stop) => return Ok(Some(refusal_text(alloc, stop)?)),
    };
    let mut out = String::new(alloc);
    if printed.as_slice() == octets.as_slice() {
        out.push_str("unchanged")?;
    } else {
        out.push_str(written(alloc, printed.as_slice())?.as_str())?;
    }
    match canonical(alloc, printed.as_slice())? {
        Ok(again) if again.as_slice() == printed.as_slice() => {}
        Ok(_) => out.push_str(", again another text")?,
        Err(stop) => {
            out.push_str(", again ")?;
            out.push_str(refusal_text(alloc, stop)?.as_str())?;
        }
    }
    Ok(Some(out))
}

/// The canonical text of a design, or why it is refused.
pub fn canonical(alloc: Global, text: &[u8]) -> Result<Result<esi_base::Octets, Stop>, NoMemory> {
    match read_design(alloc, text) {
        Ok(design) => Ok(Ok(print_design(alloc, &design)?)),
        Err(Stop::NoMemory) => Err(NoMemory),
        Err(stop) => Ok(Err(stop)),
    }
}

/// The places of offsets in a design's text: `OFFSETS TEXT`, with commas between the offsets.
pub fn places(alloc: Global, text: &str) -> Result<Option<String>, NoMemory> {
    let Some((offsets, text)) = text.split_once(" ") else {
        return Ok(None);
    };
    let Some(octets) = octets_of(alloc, text)? else {
        return Ok(None);
    };
    let design = match read_design(alloc, octets.as_slice()) {
        Ok(design) => design,
        Err(stop) => return Ok(Some(refusal_text(alloc, stop)?)),
    };
    let mut out = String::new(alloc);
    for offset in offsets.split(",") {
        let place = design.place(offset.parse::<usize>().unwrap_or(0));
        let line = place.line;
        let column = place.column;
        crate::escapes::add_part(&mut out, format!(in alloc; "{line}:{column}")?.as_str())?;
    }
    Ok(Some(out))
}
