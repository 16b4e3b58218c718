//! The numbers of a line, and words as numbers.

use esi_base::Word;
use std::str::SplitWhitespace;

/// Up to four numbers; one that is not there is 0.
#[derive(Clone, Copy)]
pub struct Numbers {
    pub first: u32,
    pub second: u32,
    pub third: u32,
    pub fourth: u32,
}

impl Numbers {
    /// The numbers that the words left are.
    pub fn read(words: &mut SplitWhitespace) -> Numbers {
        Numbers {
            first: next_number(words),
            second: next_number(words),
            third: next_number(words),
            fourth: next_number(words),
        }
    }
}

/// The number that the next word is, and 0 where there is none.
fn next_number(words: &mut SplitWhitespace) -> u32 {
    words
        .next()
        .and_then(|word| word.parse::<u32>().ok())
        .unwrap_or(0)
}

/// The word of an octet, the lowest of a number.
pub fn octet(number: u32) -> Word {
    Word::from_u128(8, u128::from(number % 256))
}

/// The number that the lowest 32 bits of a word are.
pub fn number(word: Word) -> u64 {
    let mut number: u64 = 0;
    for at in 0..word.width().min(32) {
        if word.bit(at) {
            number |= 1 << at;
        }
    }
    number
}
