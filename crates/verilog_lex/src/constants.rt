//! Constants.
ghost use Rattle.std.specs.Prelude.{◌≡◌, ◌<◌, ◌≤◌, ◌*◌, ◌-◌, ◌+◌, ◌%◌, ◌^◌, true, nat_lt, length, slice_index};
ghost use Rattle.std.specs.List.{list_all};
ghost use Rattle.design_lex.specs.Digits.{value, digit_of};
ghost use Rattle.esi_base.specs.Bits.{bits_of};
ghost use Rattle.verilog_lex.specs.Numbers as spec;
ghost use Rattle.verilog_lex.specs.Octet.{is_hex_digit as is_hex};

use crate::numbers::{begins_with_zero, digit_value, width_of};
use esi_base::Word;
use verilog_tokens::{ConstantFault, Token};

/// Two digits as an octet, those that stand so many octets before the end; the first of them is 0 where there is none.
fn octet_before(digits: &[u8], at: usize) -> u8
    requires within { 2 * at < length digits.now }
    requires digits { list_all is_hex digits.now ≡ true }
    ensures { result ≡ spec.octet_before digits.now (length digits.now - 2 * at) }
{
    let end = digits.len() - 2 * at;
    let low = digit_value(digits[end - 1]);
    if end < 2 {
        low
    } else {
        16 * digit_value(digits[end - 2]) + low
    }
}

/// The word of a width that hexadecimal digits are.
fn word_of_digits(width: u32, digits: &[u8]) -> Word
    requires low { 1 ≤ width }
    requires high { width ≤ 1024 }
    requires digits { list_all is_hex digits.now ≡ true }
    requires count { length digits.now ≡ spec.digit_count width }
    requires fits { value 16 digits.now < 2 ^ width }
    ensures { result ≡ bits_of width (value 16 digits.now) }
{
    let mut octets = [0; 128];
    let count = (digits.len() + 1) / 2;
    for at in 0..count {
        let octet = octet_before(digits, at);
        octets[at] = octet;
    }
    Word::from_octets(width, &octets[..count])
}

/// The value of the first digit.
fn first_digit(digits: &[u8]) -> u32
    requires { 0 < length digits.now }
    ensures { result ≡ digit_of (slice_index digits.now 0) }
{
    u32::from(digit_value(digits[0]))
}

/// What the first digit of a constant of a width has to be below.
fn first_limit(width: u32) -> u32
    requires { width ≤ 1024 }
    ensures { result ≡ 2 ^ ((width + 3) % 4 + 1) }
{
    1 << ((width + 3) % 4 + 1)
}

/// Whether the number that hexadecimal digits are fits a width that has as many digits: the first one has to.
fn fits(width: u32, digits: &[u8]) -> bool
    requires low { 1 ≤ width }
    requires high { width ≤ 1024 }
    requires digits { list_all is_hex digits.now ≡ true }
    requires count { length digits.now ≡ spec.digit_count width }
    ensures { result ≡ nat_lt (value 16 digits.now) (2 ^ width) }
{
    let first = first_digit(digits);
    let limit = first_limit(width);
    first < limit
}

/// The token of hexadecimal digits behind a width.
fn word_of<'a>(width: u32, digits: &[u8]) -> Token<'a>
    requires low { 1 ≤ width }
    requires high { width ≤ 1024 }
    requires digits { list_all is_hex digits.now ≡ true }
    ensures { result ≡ spec.word_of width digits.now }
{
    if digits.len() != (width as usize + 3) / 4 {
        return Token::BadConstant(ConstantFault::Digits);
    }
    if !fits(width, digits) {
        return Token::BadConstant(ConstantFault::Digits);
    }
    Token::Constant(word_of_digits(width, digits))
}

/// The token of the decimal digits of a width and the hexadecimal digits behind `'h`.
#[tactic(auto, unfolding(crate::specs::Numbers::constant_token))]
pub fn constant_token<'a>(width: &[u8], digits: &[u8]) -> Token<'a>
    requires { list_all is_hex digits.now ≡ true }
    ensures { result ≡ spec.constant_token width.now digits.now }
{
    if begins_with_zero(width) {
        return Token::LeadingZero;
    }
    match width_of(width) {
        Some(width) => word_of(width, digits),
        None => Token::BadConstant(ConstantFault::Width),
    }
}
