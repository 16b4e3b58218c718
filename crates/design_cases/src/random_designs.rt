//! Random designs, printed and read again.

use crate::designs::canonical;
use crate::random_text::{design_text, with_other_gaps};
use case_words::Numbers;
use esi_base::NoMemory;
use std::alloc::Global;

/// `SEED COUNT`: so many random designs, each a canonical text, are read and printed; and each text of
/// the same tokens with other gaps. Both are to give the canonical text.
pub fn answer(alloc: Global, text: &str) -> Result<Option<String>, NoMemory> {
    let Some((seed, count)) = text.split_once(" ") else {
        return Ok(None);
    };
    let mut numbers = Numbers::new(seed.parse::<u32>().unwrap_or(0));
    let mut refused: u32 = 0;
    let mut differing: u32 = 0;
    let count = count.parse::<u32>().unwrap_or(0);
    for _ in 0..count {
        let text = design_text(alloc, &mut numbers)?;
        let other = with_other_gaps(alloc, text.as_str(), &mut numbers)?;
        for read in [text.as_str(), other.as_str()] {
            match canonical(alloc, read.as_bytes())? {
                Ok(printed) if printed.as_slice() == text.as_str().as_bytes() => {}
                Ok(_) => differing = differing.saturating_add(1),
                Err(_) => refused = refused.saturating_add(1),
            }
        }
    }
    Ok(Some(format!(in alloc;
        "{count} designs, {refused} refused, {differing} printed as others"
    )?))
}
