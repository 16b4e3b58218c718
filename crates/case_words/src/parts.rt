//! Octets as they stand in a case: parts with blanks between them.

use std::alloc::{AllocError, Global};

/// The octets of all parts; None where one is no part.
pub fn octets_of(alloc: Global, text: &str) -> Result<Option<Vec<u8>>, AllocError> {
    let mut octets = Vec::new(alloc);
    for part in text.split_whitespace() {
        if !add_part(part, &mut octets)? {
            return Ok(None);
        }
    }
    Ok(Some(octets))
}

/// Adds the octets of a part: `preface`, `settings`, digits, or digits that stand so often, as `00*5`.
fn add_part(part: &str, octets: &mut Vec<u8>) -> Result<bool, AllocError> {
    match part {
        "preface" => octets.extend_from_slice(b"PRI * HTTP/2.0\r\n\r\nSM\r\n\r\n")?,
        "settings" => octets.extend_from_slice(b"\0\0\0\x04\0\0\0\0\0")?,
        _ => return add_repeated(part, octets),
    }
    Ok(true)
}

fn add_repeated(part: &str, octets: &mut Vec<u8>) -> Result<bool, AllocError> {
    let Some((digits, count)) = part.split_once("*") else {
        return add_digits(part, octets);
    };
    let Ok(count) = count.parse::<u32>() else {
        return Ok(false);
    };
    for _ in 0..count {
        if !add_digits(digits, octets)? {
            return Ok(false);
        }
    }
    Ok(true)
}

/// Adds the octets that hexadecimal digits are, two digits each.
fn add_digits(digits: &str, octets: &mut Vec<u8>) -> Result<bool, AllocError> {
    let mut high = None;
    for digit in digits.bytes() {
        let Some(value) = value_of(digit) else {
            return Ok(false);
        };
        match high {
            None => high = Some(value),
            Some(first) => {
                octets.push(first.wrapping_mul(16).wrapping_add(value))?;
                high = None;
            }
        }
    }
    Ok(high.is_none())
}

/// The value of a hexadecimal digit.
fn value_of(digit: u8) -> Option<u8> {
    match digit {
        b'0'..=b'9' => Some(digit - b'0'),
        b'a'..=b'f' => Some(digit - b'a' + 10),
        _ => None,
    }
}
