//! The rules of a schedule.
ghost use Rattle.std.specs.Prelude.{◌≡◌};

/// A rule that a schedule can break.
#[derive(Clone, Copy, Debug, PartialEq, Eq)]
pub enum ScheduleRule {
    /// The text has at most as many octets as the longest schedule.
    TooLong,
    /// The first part of a line is a word of a schedule.
    UnknownWord,
    /// `client` and `server` have no part after the word, and `up`, `down` and `round` one.
    PartCount,
    /// The part of `up`, `down` and `round` is a number.
    BadPart,
    /// No more lines count, and no more rounds are asked for in all, than the limits allow.
    PastLimit,
}

impl ScheduleRule {
    ghost use Rattle.schedule_text.specs.RuleNumbers.{rule_number};

    /// The number of the refusal where the rule is broken.
    pub fn number(self) -> u16
        ensures { result ≡ rule_number self }
    {
        match self {
            ScheduleRule::TooLong => 210,
            ScheduleRule::UnknownWord => 911,
            ScheduleRule::PartCount => 912,
            ScheduleRule::BadPart => 913,
            ScheduleRule::PastLimit => 914,
        }
    }
}
