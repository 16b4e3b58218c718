//! The operators of two operands, and their words.

/// An operator of two operands.
#[derive(Clone, Copy, Debug, PartialEq, Eq)]
pub enum Binary {
    /// `and`: bit by bit, 1 where both operands are 1.
    And,
    /// `or`: bit by bit, 1 where an operand is 1.
    Or,
    /// `xor`: bit by bit, 1 where exactly one operand is 1.
    Xor,
    /// `add`: the sum.
    Add,
    /// `sub`: the difference.
    Sub,
    /// `eq`: a bit, 1 where both operands are the same.
    Eq,
    /// `lt`: a bit, 1 where the first operand is less.
    Lt,
    /// `cat`: the bits of both operands, those of the first one above.
    Cat,
}

impl Binary {
    ghost use Rattle.std.specs.Prelude.{◌≡◌};
    ghost use Rattle.design_tree.specs.Words.{operator_word};

    /// The word with which the operator is written.
    pub fn word(self) -> &'static [u8]
        ensures { result.now ≡ operator_word self }
    {
        match self {
            Binary::And => b"and",
            Binary::Or => b"or",
            Binary::Xor => b"xor",
            Binary::Add => b"add",
            Binary::Sub => b"sub",
            Binary::Eq => b"eq",
            Binary::Lt => b"lt",
            Binary::Cat => b"cat",
        }
    }
}
