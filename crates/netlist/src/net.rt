//! A net: where its word comes from.

use esi_base::Word;

/// A net of a netlist. Nets name one another by their numbers, which count from 0.
#[derive(Clone, Copy, Debug)]
pub enum Net {
    /// A word that each cycle brings from outside.
    Input {
        /// Its width in bits.
        width: u32,
    },
    /// A word that is kept from cycle to cycle: at the start the reset, then what its next net had.
    Register {
        /// Its word at the start.
        reset: Word,
    },
    /// A word that never changes.
    Const(Word),
    /// Each bit of a net the other way.
    Not(u32),
    /// Bit by bit, whether both are 1.
    And(u32, u32),
    /// Bit by bit, whether one or both are 1.
    Or(u32, u32),
    /// Bit by bit, whether exactly one is 1.
    Xor(u32, u32),
    /// The sum, modulo 2 to the power of the width.
    Add(u32, u32),
    /// The first less the second, modulo 2 to the power of the width.
    Sub(u32, u32),
    /// One bit: whether both have the same word.
    Equal(u32, u32),
    /// One bit: whether the first, as a number without sign, is below the second.
    Less(u32, u32),
    /// The second net where the first, of one bit, is 1, else the third.
    Choose(u32, u32, u32),
    /// The bits of a net from a low place up to a high one.
    Slice {
        /// The net that is cut.
        of: u32,
        /// The highest place, below the net's width.
        high: u32,
        /// The lowest place.
        low: u32,
    },
    /// The bits of two nets joined.
    Concat {
        /// The net whose bits stand above.
        high: u32,
        /// The net whose bits stand below.
        low: u32,
    },
}

/// The nets that a net reads within a cycle, in the order of its fields.
#[derive(Clone, Copy, Debug)]
pub enum Sources {
    /// It reads none.
    None,
    /// It reads one.
    One(u32),
    /// It reads two.
    Two(u32, u32),
    /// It reads three.
    Three(u32, u32, u32),
}
