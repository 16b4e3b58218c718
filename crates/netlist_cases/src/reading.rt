//! Words of a line.
ghost use Rattle.std.specs.Prelude.{◌≤◌};

use esi_base::Word;
use netlist::Net;

/// A number, or 0 where there is none.
pub fn number(text: Option<&str>) -> u32 {
    match text {
        Some(text) => text.parse::<u32>().unwrap_or(0),
        None => 0,
    }
}

/// Two numbers.
pub fn two_numbers(text: &str) -> (u32, u32) {
    let mut parts = text.split(' ');
    let first = number(parts.next());
    let second = number(parts.next());
    (first, second)
}

/// The word of a width whose lowest bits are those of a number; None where there is no such width.
pub fn word(width: u32, value: u64) -> Option<Word> {
    if width == 0 || width > 1024 {
        None
    } else if width <= 64 {
        Some(narrow(width, value))
    } else {
        Some(Word::zero(width - 64).concat(&Word::from_u128(64, u128::from(value))))
    }
}

/// The same of at most 64 bits.
fn narrow(width: u32, value: u64) -> Word
    requires low { 1 ≤ width }
    requires high { width ≤ 64 }
{
    Word::from_u128(64, u128::from(value)).slice(width - 1, 0)
}

/// The numbers behind a net's kind, in their order.
#[derive(Clone, Copy)]
struct Named {
    a: u32,
    b: u32,
    c: u32,
}

/// The net that a word tells: its kind, and behind commas its numbers.
pub fn net(text: &str) -> Option<Net> {
    let mut parts = text.split(',');
    let kind = parts.next().unwrap_or("");
    let a = number(parts.next());
    let b = number(parts.next());
    let c = number(parts.next());
    let numbers = Named { a, b, c };
    if let Some(net) = source(kind, numbers) {
        Some(net)
    } else if let Some(net) = bitwise(kind, numbers) {
        Some(net)
    } else if let Some(net) = of_numbers(kind, numbers) {
        Some(net)
    } else {
        piece(kind, numbers)
    }
}

/// A net without sources.
fn source(kind: &str, numbers: Named) -> Option<Net> {
    match kind {
        "input" => Some(Net::Input { width: numbers.a }),
        "register" => register(numbers.a, numbers.b),
        "const" => constant(numbers.a, numbers.b),
        _ => None,
    }
}

/// A register whose reset is a number.
fn register(width: u32, value: u32) -> Option<Net> {
    match word(width, u64::from(value)) {
        Some(reset) => Some(Net::Register { reset }),
        None => None,
    }
}

/// A constant number.
fn constant(width: u32, value: u32) -> Option<Net> {
    match word(width, u64::from(value)) {
        Some(word) => Some(Net::Const(word)),
        None => None,
    }
}

/// An operator that takes words bit by bit.
fn bitwise(kind: &str, numbers: Named) -> Option<Net> {
    let Named { a, b, c: _ } = numbers;
    match kind {
        "not" => Some(Net::Not(a)),
        "and" => Some(Net::And(a, b)),
        "or" => Some(Net::Or(a, b)),
        "xor" => Some(Net::Xor(a, b)),
        _ => None,
    }
}

/// An operator that takes words as numbers.
fn of_numbers(kind: &str, numbers: Named) -> Option<Net> {
    let Named { a, b, c: _ } = numbers;
    match kind {
        "add" => Some(Net::Add(a, b)),
        "sub" => Some(Net::Sub(a, b)),
        "equal" => Some(Net::Equal(a, b)),
        "less" => Some(Net::Less(a, b)),
        _ => None,
    }
}

/// An operator that chooses, cuts or joins.
fn piece(kind: &str, numbers: Named) -> Option<Net> {
    let Named { a, b, c } = numbers;
    match kind {
        "choose" => Some(Net::Choose(a, b, c)),
        "slice" => Some(Net::Slice {
            of: a,
            high: b,
            low: c,
        }),
        "concat" => Some(Net::Concat { high: a, low: b }),
        _ => None,
    }
}
