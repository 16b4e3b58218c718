//! What a cycle takes and hands.

use esi_base::Word;

/// An entry of a journal: a value that was taken into a ring, or handed out of one.
#[derive(Clone, Copy, Debug)]
pub struct Transfer {
    /// The cycle in which it was taken or handed; cycles are numbered from 0.
    pub cycle: u64,
    /// The number of its channel, on its side.
    pub channel: u32,
    /// Its bits.
    pub word: Word,
}
