//! Numbers in a small text (docs/small-texts.md, "Numbers").
ghost use Rattle.std.specs.Prelude.{◌≡◌, ◌+◌, ◌*◌, ◌^◌, ◌<◌, IsTrue};
ghost use Rattle.std.specs.Char.{digit_value, is_ascii_digit};
ghost use Rattle.std.specs.List.{list_all};
ghost use Rattle.std.specs.Option.{SomeIff};
ghost use Rattle.small_text.specs.Numbers.{has_leading_zero as begins_with_zero, is_decimal as is_decimal_text, number_of};

/// The number that a part stands for: decimal digits without sign or leading zeros, and at most the
/// bound. None exactly where the part is no such number.
pub fn read_number(part: &[u8], bound: u64) -> Option<u64>
    ensures { result ≡ number_of bound part.now }
{
    if !is_decimal(part) {
        return None;
    }
    let mut number: u64 = 0;
    for digit in part {
        number = with_digit(number, *digit)?;
    }
    if number <= bound { Some(number) } else { None }
}

/// A number with one more digit after its own, where that is below 2^64.
fn with_digit(number: u64, digit: u8) -> Option<u64>
    requires { IsTrue (is_ascii_digit digit) }
    ensures { SomeIff result
        (number * 10 + digit_value digit < 2 ^ 64)
        (number * 10 + digit_value digit) }
{
    number.checked_mul(10)?.checked_add(u64::from(digit - b'0'))
}

/// Whether a part is decimal digits without a leading zero.
fn is_decimal(part: &[u8]) -> bool
    ensures { result ≡ is_decimal_text part.now }
{
    !part.is_empty() && !has_leading_zero(part) && all_digits(part)
}

/// Whether a part is more than one octet, of which the digit 0 is the first.
fn has_leading_zero(part: &[u8]) -> bool
    ensures { result ≡ begins_with_zero part.now }
{
    part.len() > 1 && part[0] == b'0'
}

/// Whether a part has decimal digits alone.
fn all_digits(part: &[u8]) -> bool
    ensures { result ≡ list_all is_ascii_digit part.now }
{
    part.iter().all(|digit| digit.is_ascii_digit())
}
