//! The rules of Verilog texts.
ghost use Rattle.std.specs.Prelude.{◌≡◌};
ghost use Rattle.verilog_rules.specs.Rules.{number_of};

use verilog_lex::TokenRule;

/// A rule that a Verilog text breaks.
#[derive(Clone, Copy, Debug, PartialEq, Eq)]
pub enum ReadingRule {
    /// A token stands where it may not, by what it breaks itself.
    Token(TokenRule),
    /// The width of a range is above 1,024.
    Width,
    /// A name that is not declared.
    Undeclared,
    /// A declaration out of order, or twice.
    Declaration,
    /// A net that is driven out of order, twice or not at all.
    Driving,
    /// Widths that do not fit.
    Widths,
    /// A wire that is used before its assign.
    Unassigned,
    /// A comment that is no endpoint line, or does not agree with the ports.
    EndpointLine,
    /// More nets than there may be, or more endpoints on a side.
    TooMany,
}

impl ReadingRule {
    /// The number of the rule, as a refusal has it.
    pub fn number(self) -> u16
        ensures { result ≡ number_of self }
    {
        match self {
            ReadingRule::Token(rule) => rule.number(),
            ReadingRule::Width => 605,
            ReadingRule::Undeclared => 606,
            ReadingRule::Declaration => 607,
            ReadingRule::Driving => 608,
            ReadingRule::Widths => 609,
            ReadingRule::Unassigned => 610,
            ReadingRule::EndpointLine => 611,
            ReadingRule::TooMany => 612,
        }
    }
}
