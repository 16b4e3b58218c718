//! What a token is.
ghost use Rattle.std.specs.Prelude.{◌≡◌};

use std::marker::Model;

/// The octets of a word, as the text has them. Contracts see the list of the octets.
#[derive(Debug, Drop)]
pub struct Spelling<'a> {
    octets: &'a [u8],
}

impl<'a> Model for Spelling<'a> {
    ghost use Rattle.std.specs.Prelude.{List, ℕ};

    ghost Value = { List ℕ };

    ghost view = { λ w. w.octets.now };
}

impl<'a> Spelling<'a> {
    /// The spelling of these octets.
    pub fn new(octets: &'a [u8]) -> Spelling<'a>
        ensures { result ≡ octets.entry.now }
    {
        Spelling { octets }
    }

    /// The octets, in order.
    pub fn octets(&self) -> &'a [u8]
        ensures { result.now ≡ self.now }
    {
        self.octets
    }
}

/// The class of a type word: the letters that stand before its width.
#[derive(Clone, Copy, Debug, PartialEq, Eq)]
pub enum Class {
    /// `ui`
    Unsigned,
    /// `si`
    Signed,
    /// `i`
    Plain,
}

/// The rules of tokens: why octets are no token of the design text.
#[derive(Clone, Copy, Debug, PartialEq, Eq)]
pub enum LexicalRule {
    /// An octet stands where a token is due, and no token begins with it.
    UnknownOctet,
    /// A word has more than `LONGEST_WORD` octets.
    LongWord,
    /// A number is above 2^128 - 1, has a zero before its first digit, or is `0x` without digits.
    BadNumber,
}

impl LexicalRule {
    ghost use Rattle.design_lex.specs.RuleNumbers.{rule_number};

    /// The number of the rule, as a refusal has it.
    pub fn number(self) -> u16
        ensures { result ≡ rule_number self }
    {
        match self {
            LexicalRule::UnknownOctet => 201,
            LexicalRule::LongWord => 202,
            LexicalRule::BadNumber => 203,
        }
    }
}

/// A token of the design text (its document, docs/design-text.md, section "Tokens"). Keywords are
/// words. A place where no token begins is a token too, a faulty one.
#[derive(Debug, Drop)]
pub enum Token<'a> {
    /// A word that is no type word; a longer one than `LONGEST_WORD` is faulty.
    Word(Spelling<'a>),
    /// A type word's class and its width in bits, where `TOO_WIDE` stands for every width above
    /// `WIDEST_TYPE`.
    TypeWord(Class, u32),
    /// A number, by its value.
    Number(u128),
    /// One of `; : , . = { } ( ) < > [ ]`, by its octet.
    Sign(u8),
    /// No token.
    Faulty(LexicalRule),
    /// The end of the text, which a cursor reports after the last token.
    End,
}
