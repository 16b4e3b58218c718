//! The rules of a stimulus.
ghost use Rattle.std.specs.Prelude.{◌≡◌};

/// A rule that a stimulus can break.
#[derive(Clone, Copy, Debug, PartialEq, Eq)]
pub enum StimulusRule {
    /// The text has at most as many octets as the longest stimulus.
    TooLong,
    /// The first part of a line is `put`, `ready` or `run`.
    UnknownWord,
    /// `put` and `ready` have two parts after the word, and `run` has one.
    PartCount,
    /// The octets of `put` are octets, the switch of `ready` is `0` or `1`, and the cycles of `run` are
    /// a number.
    BadPart,
    /// The design has an endpoint of the name, on the side that the step is for. This is checked with
    /// the design.
    UnknownEndpoint,
    /// The octets of `put` are a value of the endpoint's type. This is checked with the design.
    NoValue,
    /// No more lines count, and no more cycles are run in all, than the limits allow.
    PastLimit,
}

impl StimulusRule {
    ghost use Rattle.stimulus_text.specs.RuleNumbers.{rule_number};

    /// The number of the refusal where the rule is broken.
    pub fn number(self) -> u16
        ensures { result ≡ rule_number self }
    {
        match self {
            StimulusRule::TooLong => 210,
            StimulusRule::UnknownWord => 221,
            StimulusRule::PartCount => 222,
            StimulusRule::BadPart => 223,
            StimulusRule::UnknownEndpoint => 224,
            StimulusRule::NoValue => 225,
            StimulusRule::PastLimit => 226,
        }
    }
}
