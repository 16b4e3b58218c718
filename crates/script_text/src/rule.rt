//! The rules of a script.
ghost use Rattle.std.specs.Prelude.{◌≡◌};

/// A rule that a script can break.
#[derive(Clone, Copy, Debug, PartialEq, Eq)]
pub enum ScriptRule {
    /// The text has at most as many octets as the longest script.
    TooLong,
    /// The first part of a line is a word of a script, and the part before a status is `status`.
    UnknownWord,
    /// `attach` has one or three parts after the word, `send` two or four, `expect` two, and `list`
    /// none.
    PartCount,
    /// The octets of `send` are octets, a status is a number of at most 16, and the count of `expect`
    /// is a number.
    BadPart,
    /// No `attach` comes after a `send`.
    AttachAfterSend,
    /// The name of `expect` was attached by a line before.
    NotAttached,
    /// No more lines count, no more lines attach, and no name is longer than the limits allow.
    PastLimit,
}

impl ScriptRule {
    ghost use Rattle.script_text.specs.RuleNumbers.{rule_number};

    /// The number of the refusal where the rule is broken.
    pub fn number(self) -> u16
        ensures { result ≡ rule_number self }
    {
        match self {
            ScriptRule::TooLong => 210,
            ScriptRule::UnknownWord => 801,
            ScriptRule::PartCount => 802,
            ScriptRule::BadPart => 803,
            ScriptRule::AttachAfterSend => 804,
            ScriptRule::NotAttached => 805,
            ScriptRule::PastLimit => 806,
        }
    }
}
