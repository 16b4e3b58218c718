//! Parts: what an element of a design is, apart from the channels that it stands between.

use crate::formula::Formula;
use esi_base::Word;

/// What an element does between its channels. A part is good where its numbers are within the limits of
/// this crate (`IsGoodPart` of `specs/Parts.antt`).
#[derive(Debug, Drop)]
pub enum Part {
    /// A pipeline stage, which holds two words at most.
    Stage {
        /// The width of a word, in bits: 1 to `MAX_WIDTH`.
        width: u32,
    },
    /// A FIFO, which gives FIFO signalling.
    Fifo {
        /// The width of a word, in bits: 1 to `MAX_WIDTH`.
        width: u32,
        /// How many words it holds at most: `MIN_DEPTH` to `MAX_DEPTH`.
        depth: u32,
    },
    /// From valid and ready to FIFO signalling.
    AsFifo,
    /// From FIFO signalling to valid and ready.
    AsVr,
    /// A word computed from each word.
    Map {
        /// The word, where variable 0 is the one that comes in.
        body: Formula,
    },
    /// A state computed from each word and the state before, which is what goes out.
    Scan {
        /// The state at the start.
        reset: Word,
        /// The next state, where variable 0 is the state and variable 1 the word that comes in.
        body: Formula,
    },
    /// Each word to several channels.
    Fork {
        /// How many channels: `MIN_BRANCHES` to `MAX_BRANCHES`.
        branches: u32,
    },
    /// A word of two channels each, joined, the first one's above.
    Join,
}
