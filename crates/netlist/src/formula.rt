//! Formulas: what is computed from the values of variables within a cycle.

use esi_base::Word;
use sqlite_items::{Boxed, Items};

/// A half of a word.
#[derive(Clone, Copy, Debug, PartialEq, Eq)]
pub enum Half {
    /// The bits that stand above.
    High,
    /// The bits that stand below.
    Low,
}

/// A formula over variables, which are numbered from 0. Its operators are those of `Net`, and ask the
/// same of their operands. From a formula come the nets of its operands, from the first one to the last,
/// then the net of its own operator; of a concatenation it is said which half comes first.
#[derive(Debug, Drop)]
pub enum Formula {
    /// The value of a variable, which has no net of its own.
    Var(u32),
    /// A word that never changes.
    Const(Word),
    /// Each bit of a value the other way.
    Not(Boxed<Formula>),
    /// Bit by bit, whether both are 1.
    And(Boxed<Formula>, Boxed<Formula>),
    /// Bit by bit, whether one or both are 1.
    Or(Boxed<Formula>, Boxed<Formula>),
    /// Bit by bit, whether exactly one is 1.
    Xor(Boxed<Formula>, Boxed<Formula>),
    /// The sum, modulo 2 to the power of the width.
    Add(Boxed<Formula>, Boxed<Formula>),
    /// The first less the second, modulo 2 to the power of the width.
    Sub(Boxed<Formula>, Boxed<Formula>),
    /// One bit: whether both are the same word.
    Equal(Boxed<Formula>, Boxed<Formula>),
    /// One bit: whether the first, as a number without sign, is below the second.
    Less(Boxed<Formula>, Boxed<Formula>),
    /// The second value where the first, of one bit, is 1, else the third.
    Choose(Boxed<Formula>, Boxed<Formula>, Boxed<Formula>),
    /// The bits of a value from a low place up to a high one.
    Slice {
        /// The value that is cut.
        of: Boxed<Formula>,
        /// The highest place, below the value's width.
        high: u32,
        /// The lowest place.
        low: u32,
    },
    /// The bits of two values joined.
    Concat {
        /// The value whose bits stand above.
        high: Boxed<Formula>,
        /// The value whose bits stand below.
        low: Boxed<Formula>,
        /// The half whose nets come first.
        first: Half,
    },
    /// Any number of values joined one after the other, each a concatenation of what is joined so far and
    /// the next one. It stands for a chain of concatenations, and is no deeper for many values than for
    /// one.
    Join {
        /// The values in the order in which they are joined, one at least.
        parts: Items<Formula>,
        /// The half that what is joined so far takes: above the next value, or below it.
        so_far: Half,
    },
}
