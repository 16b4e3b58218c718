//! The rules of a log.
ghost use Rattle.std.specs.Prelude.{◌≡◌};

/// A rule that a log can break.
#[derive(Clone, Copy, Debug, PartialEq, Eq)]
pub enum LogRule {
    /// The text has at most as many octets as the longest log.
    TooLong,
    /// The first part of a line is a word of a log.
    UnknownWord,
    /// `bytes` and `room` have two parts after the word, `writable` and `closed` one, and `opened`,
    /// `idle` and `fail` none.
    PartCount,
    /// A connection and the room of `room` are numbers, and the octets of `bytes` are octets.
    BadPart,
    /// The connection of `bytes`, `writable` and `closed` is open by the lines before.
    NotOpen,
    /// The connection of `room` was opened by a line before.
    NeverOpened,
    /// `bytes` has at most as many octets as an event, and no more lines count than the limit allows.
    PastLimit,
}

impl LogRule {
    ghost use Rattle.link_log.specs.RuleNumbers.{rule_number};

    /// The number of the refusal where the rule is broken.
    pub fn number(self) -> u16
        ensures { result ≡ rule_number self }
    {
        match self {
            LogRule::TooLong => 210,
            LogRule::UnknownWord => 901,
            LogRule::PartCount => 902,
            LogRule::BadPart => 903,
            LogRule::NotOpen => 904,
            LogRule::NeverOpened => 905,
            LogRule::PastLimit => 906,
        }
    }
}
