//! The rules of the grammar.
ghost use Rattle.std.specs.Prelude.{◌≡◌};

/// The rules of the design text's grammar: why a token is refused, or the end of the text. A token that is
/// faulty itself is refused by its `LexicalRule`.
#[derive(Clone, Copy, Debug, PartialEq, Eq)]
pub enum GrammarRule {
    /// A type would be one open inside more others than the limit of open types allows.
    TooManyOpenTypes,
    /// A number stands where a count is due, and is above 2^32 - 1.
    GreatCount,
    /// No text goes on with this token, and no other rule says why.
    UnexpectedToken,
    /// The text ends where more is needed.
    EarlyEnd,
    /// A keyword or a type word stands where only a name may stand.
    ReservedWord,
    /// An expression would be one open inside more others than the limit of open expressions allows.
    TooManyOpenExpressions,
    /// A number other than 1 stands where the version is due.
    UnknownVersion,
}

impl GrammarRule {
    ghost use Rattle.design_grammar.specs.RuleNumbers.{rule_number};

    /// The number of the rule, as a refusal has it.
    pub fn number(self) -> u16
        ensures { result ≡ rule_number self }
    {
        match self {
            GrammarRule::TooManyOpenTypes => 103,
            GrammarRule::GreatCount => 203,
            GrammarRule::UnexpectedToken => 205,
            GrammarRule::EarlyEnd => 206,
            GrammarRule::ReservedWord => 207,
            GrammarRule::TooManyOpenExpressions => 208,
            GrammarRule::UnknownVersion => 209,
        }
    }
}
