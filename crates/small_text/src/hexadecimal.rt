//! Octets in a small text (docs/small-texts.md, "Octets").
ghost use Rattle.std.specs.Prelude.{◌≡◌, ◌/◌, ◌%◌, ◌∷◌, ◌++◌, ◌<◌, [], IfOk, IfSome, OnOk, OnErr};
ghost use Rattle.small_text.specs.Hexadecimal.{hex_digit as digit_for, hex_of, hex_value as value_for, octet_of as octet_for, octets_of};

use esi_base::{List, NoMemory, Octets};
use std::alloc::Global;

/// The octets that a part stands for: two lower-case hexadecimal digits for each, and at least one
/// octet. None exactly where the part is no such row of digits.
pub fn read_octets(alloc: Global, part: &[u8]) -> Result<Option<Octets>, NoMemory>
    ensures { IfOk result (λ octets. octets ≡ octets_of part.now) }
{
    if part.is_empty() {
        return Ok(None);
    }
    let mut octets = List::new(alloc);
    let mut rest = part;
    while rest.len() >= 2 {
        let (_, others) = rest.split_at(2);
        match octet_of(rest[0], rest[1]) {
            None => return Ok(None),
            Some(octet) => octets.add(octet)?,
        }
        rest = others;
    }
    if rest.is_empty() {
        Ok(Some(octets))
    } else {
        Ok(None)
    }
}

/// Adds octets at the end of a text, two lower-case hexadecimal digits for each. It fails only when it
/// runs out of memory, and then leaves the text as it was.
pub fn push_hex(out: &mut Octets, octets: &[u8]) -> Result<(), NoMemory>
    ensures pushed { OnOk result (out.new ≡ out.old ++ hex_of octets.now) }
    ensures unchanged { OnErr result (out.new ≡ out.old) }
{
    let len = out.len();
    for octet in octets {
        if out.push_all(&digits_of(*octet)).is_err() {
            out.truncate(len);
            return Err(NoMemory);
        }
    }
    Ok(())
}

/// The two digits of an octet.
fn digits_of(octet: u8) -> [u8; 2]
    ensures { result ≡ digit_for (octet / 16) ∷ digit_for (octet % 16) ∷ [] }
{
    [hex_digit(octet / 16), hex_digit(octet % 16)]
}

/// The octet that two digits stand for.
fn octet_of(high: u8, low: u8) -> Option<u8>
    ensures { result ≡ octet_for (value_for high) (value_for low) }
{
    let high = hex_value(high)?;
    let low = hex_value(low)?;
    Some(16 * high + low)
}

/// The number that a lower-case hexadecimal digit stands for.
fn hex_value(digit: u8) -> Option<u8>
    ensures value { result ≡ value_for digit }
    ensures small { IfSome result (λ number. number < 16) }
{
    match digit {
        b'0'..=b'9' => Some(digit - b'0'),
        b'a'..=b'f' => Some(digit - b'a' + 10),
        _ => None,
    }
}

/// The lower-case hexadecimal digit of a number.
fn hex_digit(number: u8) -> u8
    requires { number < 16 }
    ensures { result ≡ digit_for number }
{
    if number < 10 {
        b'0' + number
    } else {
        b'a' + (number - 10)
    }
}
