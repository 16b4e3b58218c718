//! Why a token is not taken where it stands.
ghost use Rattle.std.specs.Prelude.{◌≡◌};
ghost use Rattle.verilog_lex.specs.RuleNumbers.{rule_number, rule_of as rule_for};

use verilog_tokens::{ConstantFault, Token};

/// The rules that a token breaks by itself where no such token may stand (docs/verilog.md).
#[derive(Clone, Copy, Debug, PartialEq, Eq)]
pub enum TokenRule {
    /// A token stands where it may not.
    Unexpected,
    /// The text ends where a token is due.
    EarlyEnd,
    /// An octet stands where a token is due, and no token begins with it.
    UnknownOctet,
    /// A constant does not fit its width, or has another count of digits.
    ConstantDigits,
    /// The width of a constant is 0 or above 1,024.
    ConstantWidth,
}

impl TokenRule {
    /// The number of the rule, as a refusal has it.
    pub fn number(self) -> u16
        ensures { result ≡ rule_number self }
    {
        match self {
            TokenRule::Unexpected => 601,
            TokenRule::EarlyEnd => 602,
            TokenRule::UnknownOctet => 603,
            TokenRule::ConstantDigits => 604,
            TokenRule::ConstantWidth => 605,
        }
    }

    /// The rule that a token breaks where no such token may stand. What is wrong with the token itself comes first.
    pub fn of(token: &Token<'_>) -> TokenRule
        ensures { result ≡ rule_for token.now }
    {
        match token {
            Token::EndOfText => TokenRule::EarlyEnd,
            Token::Faulty => TokenRule::UnknownOctet,
            Token::BadConstant(ConstantFault::Digits) => TokenRule::ConstantDigits,
            Token::BadConstant(ConstantFault::Width) => TokenRule::ConstantWidth,
            _ => TokenRule::Unexpected,
        }
    }
}
