//! The token that a text begins with.
ghost use Rattle.std.specs.Prelude.{◌≡◌, ◌<◌, ◌≤◌, length};
ghost use Rattle.design_lex.specs.Tokens as spec;
ghost use Rattle.std.specs.Char.{is_ascii_digit as is_digit};
ghost use Rattle.std.specs.List.{list_all};

use crate::digits::{begins_with_zero, capped_width, number_value};
use crate::limits::LONGEST_WORD;
use crate::octets::{begins_word, digits_len, hex_len, is_sign, word_len};
use crate::token::{Class, LexicalRule, Spelling, Token};

fn bounded<'a>(number: Option<u128>) -> Token<'a>
    ensures { result ≡ spec.bounded_token number }
{
    match number {
        Some(number) => Token::Number(number),
        None => Token::Faulty(LexicalRule::BadNumber),
    }
}

#[tactic(auto, unfolding(crate::specs::Tokens::decimal))]
fn decimal<'a>(digits: &[u8]) -> Token<'a>
    ensures { result ≡ spec.decimal digits.now }
{
    if begins_with_zero(digits) {
        return Token::Faulty(LexicalRule::BadNumber);
    }
    bounded(number_value(digits, 10))
}

#[tactic(auto, unfolding(crate::specs::Tokens::hexadecimal))]
fn hexadecimal<'a>(digits: &[u8]) -> Token<'a>
    ensures { result ≡ spec.hexadecimal digits.now }
{
    if digits.is_empty() {
        return Token::Faulty(LexicalRule::BadNumber);
    }
    bounded(number_value(digits, 16))
}

#[tactic(auto, unfolding(crate::specs::Tokens::type_word))]
fn type_word<'a>(class: Class, digits: &[u8]) -> Token<'a>
    ensures { result ≡ spec.type_word class digits.now }
{
    if begins_with_zero(digits) {
        return Token::Faulty(LexicalRule::BadNumber);
    }
    Token::TypeWord(class, capped_width(digits))
}

fn has_digits_alone(digits: &[u8]) -> bool
    ensures { result ≡ list_all is_digit digits.now }
{
    digits.iter().all(|b| b.is_ascii_digit())
}

fn are_digits(digits: &[u8]) -> bool
    ensures { result ≡ spec.are_digits digits.now }
{
    !digits.is_empty() && has_digits_alone(digits)
}

fn plain_word<'a>(word: &'a [u8]) -> Token<'a>
    ensures { result ≡ spec.plain_word word.entry.now }
{
    if word.len() > LONGEST_WORD {
        return Token::Faulty(LexicalRule::LongWord);
    }
    Token::Word(Spelling::new(word))
}

#[tactic(auto, unfolding(crate::specs::Tokens::word_token))]
fn word_token<'a>(word: &'a [u8]) -> Token<'a>
    ensures { result ≡ spec.word_token word.entry.now }
{
    match word {
        [b'u', b'i', digits @ ..] if are_digits(digits) => type_word(Class::Unsigned, digits),
        [b's', b'i', digits @ ..] if are_digits(digits) => type_word(Class::Signed, digits),
        [b'i', digits @ ..] if are_digits(digits) => type_word(Class::Plain, digits),
        _ => plain_word(word),
    }
}

/// The token that a text begins with, the longest one, and the count of its octets.
#[tactic(auto, unfolding(crate::specs::Tokens::cut))]
pub fn next_token<'a>(text: &'a [u8]) -> (Token<'a>, usize)
    requires { 0 < length text.now }
    ensures token { result ≡ spec.cut text.entry.now }
    ensures some { 0 < result.1 }
    ensures within { result.1 ≤ length text.entry.now }
{
    let first = text[0];
    if begins_word(first) {
        let len = word_len(text);
        (word_token(&text[..len]), len)
    } else if first == b'0' && text.get(1) == Some(&b'x') {
        let digits = &text[2..];
        let len = hex_len(digits);
        (hexadecimal(&digits[..len]), 2 + len)
    } else if first.is_ascii_digit() {
        let len = digits_len(text);
        (decimal(&text[..len]), len)
    } else if is_sign(first) {
        (Token::Sign(first), 1)
    } else {
        (Token::Faulty(LexicalRule::UnknownOctet), 1)
    }
}
