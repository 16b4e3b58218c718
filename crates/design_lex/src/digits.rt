//! Numbers and widths of digits.
ghost use Rattle.std.specs.Prelude.{◌≡◌, ◌<◌, ◌≤◌, ◌+◌, ◌*◌, ◌^◌, min};
ghost use Rattle.design_lex.specs.Digits.{value, digit_of, has_leading_zero, value_below};

use crate::limits::TOO_WIDE;

fn digit_value(digit: u8) -> u8
    ensures { result ≡ digit_of digit }
{
    if digit < b'a' {
        digit.saturating_sub(b'0')
    } else {
        digit.saturating_sub(b'a' - 10)
    }
}

/// Whether a zero stands in front of further digits.
pub fn begins_with_zero(digits: &[u8]) -> bool
    ensures { result ≡ has_leading_zero digits.now }
{
    matches!(digits, [b'0', _, ..])
}

fn with_digit(front: u128, base: u128, digit: u8) -> Option<u128>
    ensures { result ≡ value_below (2 ^ 128) (front * base + digit_of digit) }
{
    front
        .checked_mul(base)?
        .checked_add(u128::from(digit_value(digit)))
}

/// The value of digits to a base; None exactly where it is above 2^128 - 1.
pub fn number_value(digits: &[u8], base: u128) -> Option<u128>
    requires { 1 ≤ base }
    ensures { result ≡ value_below (2 ^ 128) (value base digits.now) }
{
    let mut front = 0;
    for digit in digits {
        front = with_digit(front, base, *digit)?;
    }
    Some(front)
}

/// The value of decimal digits, or `TOO_WIDE` where it is above that.
pub fn capped_width(digits: &[u8]) -> u32
    ensures { result ≡ min TOO_WIDE (value 10 digits.now) }
{
    let mut front: u32 = 0;
    for digit in digits {
        front = (front * 10 + u32::from(digit_value(*digit))).min(TOO_WIDE);
    }
    front
}
