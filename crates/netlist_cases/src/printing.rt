//! Words as digits.

use esi_base::Word;
use std::alloc::AllocError;
use std::fmt::Write;

/// Adds what a cycle came to.
pub fn add_words(
    text: &mut String,
    count: usize,
    words: &[Word],
    is_settled: bool,
) -> Result<(), AllocError> {
    if !text.as_str().is_empty() {
        text.push_str(" | ")?;
    }
    write!(text, "{count}:")?;
    for word in words {
        text.push_str(" ")?;
        add_word(text, word)?;
    }
    if !is_settled {
        text.push_str(" differs")?;
    }
    Ok(())
}

/// Adds a word in hexadecimal digits, as many as its bits need.
pub fn add_word(text: &mut String, word: &Word) -> Result<(), AllocError> {
    let width = word.width();
    let mut at = width.div_ceil(8);
    if width % 8 != 0 && width % 8 <= 4 {
        at -= 1;
        let octet = word.octet(at);
        write!(text, "{octet:x}")?;
    }
    while at > 0 {
        at -= 1;
        let octet = word.octet(at);
        write!(text, "{octet:02x}")?;
    }
    Ok(())
}
