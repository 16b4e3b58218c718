//! Numbers of digits.
ghost use Rattle.std.specs.Prelude.{◌≡◌, ◌≤◌, ◌^◌, min};
ghost use Rattle.design_lex.specs.Digits.{value, value_below, digit_of, has_leading_zero};
ghost use Rattle.verilog_lex.specs.Numbers as spec;
ghost use Rattle.verilog_lex.specs.Words as words;

use crate::limits::{GREATEST_NUMBER, INDICES, TOO_WIDE};
use esi_base::word::WORD_BITS;
use verilog_tokens::Token;

/// The value of a digit, decimal or hexadecimal.
pub fn digit_value(digit: u8) -> u8
    ensures { result ≡ digit_of digit }
{
    if digit < b'a' {
        digit.saturating_sub(b'0')
    } else {
        digit.saturating_sub(b'a' - 10)
    }
}

/// Whether a zero stands in front of further digits.
pub fn begins_with_zero(digits: &[u8]) -> bool
    ensures { result ≡ has_leading_zero digits.now }
{
    matches!(digits, [b'0', _, ..])
}

/// The value of decimal digits, or a bound where it is above that.
fn capped(digits: &[u8], bound: u64) -> u64
    requires { bound ≤ 2 ^ 32 }
    ensures { result ≡ min bound (value 10 digits.now) }
{
    let mut front: u64 = 0;
    for digit in digits {
        front = (front * 10 + u64::from(digit_value(*digit))).min(bound);
    }
    front
}

fn is_numeral(digits: &[u8]) -> bool
    ensures { result ≡ words.is_numeral digits.now }
{
    !digits.is_empty() && !begins_with_zero(digits)
}

/// A number, where it is below 2^32.
fn small(number: u64) -> Option<u32>
    ensures { result ≡ value_below (2 ^ 32) number }
{
    if number < INDICES {
        Some(number as u32)
    } else {
        None
    }
}

/// The value of decimal digits, where it is below 2^32.
fn small_value(digits: &[u8]) -> Option<u32>
    ensures { result ≡ value_below (2 ^ 32) (value 10 digits.now) }
{
    small(capped(digits, INDICES))
}

/// The number of a net or of an endpoint: None exactly where there is no digit, a zero stands in front of others, or the number is
/// 2^32 or above.
pub fn index_of(digits: &[u8]) -> Option<u32>
    ensures { result ≡ words.index_of digits.now }
{
    if is_numeral(digits) {
        small_value(digits)
    } else {
        None
    }
}

/// The token of decimal digits.
#[tactic(auto, unfolding(crate::specs::Numbers::number_token))]
pub fn number_token<'a>(digits: &[u8]) -> Token<'a>
    ensures { result ≡ spec.number_token digits.now }
{
    if begins_with_zero(digits) {
        return Token::LeadingZero;
    }
    Token::Number(capped(digits, u64::from(GREATEST_NUMBER)) as u32)
}

fn is_width(number: u64) -> bool
    ensures { result ≡ spec.is_width number }
{
    1 <= number && number <= u64::from(WORD_BITS)
}

/// A number, where it is a width that a word can have.
fn width_in(number: u64) -> Option<u32>
    ensures { result ≡ spec.width_in number }
{
    if is_width(number) {
        Some(number as u32)
    } else {
        None
    }
}

/// The width that decimal digits are, where a word can have it.
pub fn width_of(digits: &[u8]) -> Option<u32>
    ensures { result ≡ spec.width_of digits.now }
{
    width_in(capped(digits, TOO_WIDE))
}
