//! A stream of messages at each cutting.

use crate::calls;
use esi_base::NoMemory;
use grpc_calls::Deframer;
use std::alloc::Global;

/// Octets are cut after each of the first ones or not, in each way; more places are left alone.
const PLACES: usize = 17;

/// The messages of octets, and what comes after them, at each cutting: a limit, and octets. None where
/// the text is none.
pub fn read(alloc: Global, text: &str) -> Result<Option<String>, NoMemory> {
    let Some((limit, octets)) = text.split_once(" ") else {
        return Ok(None);
    };
    let Ok(limit) = limit.parse::<u32>() else {
        return Ok(None);
    };
    let Some(octets) = octet_texts::octets_of(alloc, octets)? else {
        return Ok(None);
    };
    let octets = octets.as_slice();
    let whole = read_cut(alloc, limit, octets, 0)?;
    let places = octets.len().saturating_sub(1).min(PLACES) as u32;
    let cuttings = 1u32 << places;
    let mut differing: u32 = 0;
    for cuts in 0..cuttings {
        let answer = read_cut(alloc, limit, octets, cuts)?;
        differing = differing.saturating_add(u32::from(answer.as_str() != whole.as_str()));
    }
    let answer = if differing == 0 {
        format!(in alloc; "{whole} at each of {cuttings} cuttings")?
    } else {
        format!(in alloc; "{whole}, but another answer at {differing} of {cuttings} cuttings")?
    };
    Ok(Some(answer))
}

/// Reads octets that are cut after the octet with the index `at` where this bit of `cuts` is 1.
fn read_cut(alloc: Global, limit: u32, octets: &[u8], cuts: u32) -> Result<String, NoMemory> {
    let mut deframer = Deframer::new(alloc, limit);
    let mut answer = String::new(alloc);
    let mut start = 0;
    for at in 0..octets.len() {
        if at < PLACES && cuts & (1 << at) != 0 {
            let piece = octets.get(start..at + 1).unwrap_or(&[]);
            calls::feed(alloc, &mut deframer, piece, &mut answer)?;
            start = at + 1;
        }
    }
    let rest = octets.get(start..).unwrap_or(&[]);
    let end = calls::feed(alloc, &mut deframer, rest, &mut answer)?;
    answer.push_str(end)?;
    Ok(answer)
}
