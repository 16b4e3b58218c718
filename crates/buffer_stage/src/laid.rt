//! The nets that an element stands between, and those that it has so far.

use esi_base::List;

/// The nets of a channel that lead forward.
#[derive(Clone, Copy, Debug, PartialEq, Eq)]
pub struct Wire {
    /// The net of valid; of `empty` where the channel has FIFO signalling.
    pub valid: u32,
    /// The net of the word.
    pub word: u32,
}

/// The nets of an element, as far as the passes have made them.
#[derive(Debug, Drop)]
pub struct Laid {
    /// The first of its registers.
    pub registers: u32,
    /// The wires of its inputs.
    pub inputs: List<Wire>,
    /// The first of its forward nets.
    pub forward: u32,
    /// The wire of its first output.
    pub output: Wire,
    /// The ready nets of its outputs; of `rden` where an output has FIFO signalling.
    pub readies: List<u32>,
    /// The first of its backward nets.
    pub backward: u32,
}
