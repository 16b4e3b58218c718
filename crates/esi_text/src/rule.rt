//! The rule of a whole design text. Those of its tokens, its grammar and its types stand in their crates.
ghost use Rattle.std.specs.Prelude.{◌≡◌};

/// A rule that a design text can break as a whole.
#[derive(Clone, Copy, Debug, PartialEq, Eq)]
pub enum DesignRule {
    /// The text has at most as many octets as the longest design text.
    TooLong,
}

impl DesignRule {
    ghost use Rattle.esi_text.specs.RuleNumbers.{rule_number};

    /// The number of the refusal where the rule is broken.
    pub fn number(self) -> u16
        ensures { result ≡ rule_number self }
    {
        match self {
            DesignRule::TooLong => 210,
        }
    }
}
