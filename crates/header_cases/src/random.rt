//! Random cases: what is written is read again.

use crate::{huffman, random_blocks};
use case_words::Numbers;
use esi_base::NoMemory;
use std::alloc::Global;

/// Writes so many random cases of a kind with a seed, reads each again, and gives how many come back as
/// others. None where the text is none: a kind, a seed and a count.
pub fn compared(alloc: Global, text: &str) -> Result<Option<String>, NoMemory> {
    let mut words = text.split_whitespace();
    let kind = words.next().unwrap_or("");
    let seed = words.next().unwrap_or("").parse::<u32>().unwrap_or(0);
    let count = words.next().unwrap_or("").parse::<u32>().unwrap_or(0);
    let mut numbers = Numbers::new(seed);
    let mut differing: u32 = 0;
    for _ in 0..count {
        let Some(same) = comes_back(alloc, kind, &mut numbers)? else {
            return Ok(None);
        };
        differing = differing.saturating_add(u32::from(!same));
    }
    let same = count.saturating_sub(differing);
    Ok(Some(format!(in alloc; "{same} of {count} come back")?))
}

/// Whether a random case of a kind comes back; None where there is no such kind.
fn comes_back(alloc: Global, kind: &str, numbers: &mut Numbers) -> Result<Option<bool>, NoMemory> {
    let same = match kind {
        "huffman" => huffman::text_comes_back(alloc, numbers)?,
        "huffman-code" => huffman::code_comes_back(alloc, numbers)?,
        "header-blocks" => random_blocks::blocks_come_back(alloc, numbers)?,
        "header-lists" => random_blocks::lists_come_back(alloc, numbers)?,
        _ => return Ok(None),
    };
    Ok(Some(same))
}
