//! From a text to the octets that stand for it.
ghost use Rattle.std.specs.Prelude.{◌≡◌, ◌<◌, ◌≤◌, ◌^◌, ◌+◌, ◌-◌, ◌++◌, [], OnOk, OnErr, IfOk, length, take, slice_index};
ghost use Rattle.hpack_huffman.specs.Code.{high_bits, ones, spelled, word_of};
ghost use Rattle.hpack_huffman.specs.Encoding.{encoded};
ghost use Rattle.hpack_huffman.specs.Additions.{AddsCode};
ghost use Rattle.hpack_huffman.specs.Puts.{Fills, Puts};

use crate::words::{LENGTHS, NUMBERS};
use esi_base::{NoMemory, Octets};

/// The word of a symbol.
#[derive(Clone, Copy)]
struct CodeWord {
    /// The number that it is, the most significant bit first.
    number: u32,
    /// How many bits it has.
    length: u32,
    ghost fits: { number < 2 ^ length },
    ghost short: { length ≤ 30 },
}

/// Bits that are written but fill no octet yet.
#[derive(Clone, Copy)]
struct Pending {
    /// The number that they are, the most significant bit first.
    number: u64,
    /// How many there are.
    count: u32,
    ghost fits: { number < 2 ^ count },
    ghost short: { count < 8 },
}

/// How many octets `huff_encode` adds for a text of at most 2^32 - 1 octets. It takes no memory.
pub fn huff_len(text: &[u8]) -> usize
    requires { length text.now < 2 ^ 32 }
    ensures { result ≡ length (encoded text.now) }
{
    let mut bits: u64 = 0;
    for octet in text {
        bits += u64::from(code_word(*octet).length);
    }
    bits.div_ceil(8) as usize
}

/// Adds at the end of `out` the octets that stand for a text: the words of its octets, and fewer than
/// 8 ones after them (RFC 7541, section 5.2). It fails only when it runs out of memory, and then
/// leaves `out` as it was.
pub fn huff_encode(text: &[u8], out: &mut Octets) -> Result<(), NoMemory>
    // What it adds is the code of the text, and of no other.
    ensures code { OnOk result (AddsCode text.now out.old out.new) }
    ensures exact { OnOk result (out.new ≡ out.old ++ encoded text.now) }

    ensures unchanged { OnErr result (out.new ≡ out.old) }
{
    let len = out.len();
    match write_code(text, out) {
        Ok(()) => Ok(()),
        Err(stop) => {
            out.truncate(len);
            Err(stop)
        }
    }
}

/// The same, but that octets may be left after what was there where it fails.
fn write_code(text: &[u8], out: &mut Octets) -> Result<(), NoMemory>
    ensures ok { OnOk result (Fills out.old out.new (spelled text.now)) }
    ensures prefix { take (length out.old) out.new ≡ out.old }
{
    match write_words(text, out) {
        Ok(pending) => fill_octet(pending, out),
        Err(stop) => Err(stop),
    }
}

/// Writes the words of a text, and gives the bits that fill no octet.
fn write_words(text: &[u8], out: &mut Octets) -> Result<Pending, NoMemory>
    ensures ok { IfOk result (λ left. Puts out.old out.new (spelled text.now) (high_bits left.count left.number)) }
    ensures prefix { take (length out.old) out.new ≡ out.old }
{
    let mut pending = no_bits();
    for octet in text {
        match write_word(pending, code_word(*octet), out) {
            Ok(left) => pending = left,
            Err(stop) => return Err(stop),
        }
    }
    Ok(pending)
}

/// No bits that wait.
fn no_bits() -> Pending
    ensures { high_bits result.count result.number ≡ [] }
{
    Pending {
        number: 0,
        count: 0,
    }
}

/// Writes a word after bits that wait, and gives those that fill no octet.
fn write_word(pending: Pending, word: CodeWord, out: &mut Octets) -> Result<Pending, NoMemory>
    ensures ok { IfOk result (λ left. Puts out.old out.new (high_bits pending.count pending.number ++ high_bits word.length word.number) (high_bits left.count left.number)) }
    ensures prefix { take (length out.old) out.new ≡ out.old }
{
    let number = (pending.number << word.length) + u64::from(word.number);
    write_octets(number, pending.count + word.length, out)
}

/// Writes the octets that bits fill, and gives the bits that are left. They are the lowest `count` bits
/// of a number, the most significant first.
fn write_octets(number: u64, count: u32, out: &mut Octets) -> Result<Pending, NoMemory>
    requires { count < 64 }
    ensures ok { IfOk result (λ left. Puts out.old out.new (high_bits count number) (high_bits left.count left.number)) }
    ensures prefix { take (length out.old) out.new ≡ out.old }
{
    let mut left = count;
    while left >= 8 {
        left -= 8;
        out.add(((number >> left) % 256) as u8)?;
    }
    Ok(lowest(number, left))
}

/// The lowest bits of a number.
fn lowest(number: u64, count: u32) -> Pending
    requires { count < 8 }
    ensures count { result.count ≡ count }
    ensures bits { high_bits count result.number ≡ high_bits count number }
{
    Pending {
        number: number & ((1 << count) - 1),
        count,
    }
}

/// Fills the last octet with ones.
fn fill_octet(pending: Pending, out: &mut Octets) -> Result<(), NoMemory>
    ensures ok { OnOk result (Fills out.old out.new (high_bits pending.count pending.number)) }
    ensures unchanged { OnErr result (out.new ≡ out.old) }
{
    if pending.count == 0 {
        return Ok(());
    }
    out.add(filled(pending))
}

/// The octet that bits and ones after them are.
fn filled(pending: Pending) -> u8
    ensures { high_bits 8 result ≡ high_bits pending.count pending.number ++ ones (8 - pending.count) }
{
    let ones = 255 >> pending.count;
    ((pending.number << (8 - pending.count)) + ones) as u8
}

/// The word of an octet.
fn code_word(octet: u8) -> CodeWord
    ensures { high_bits result.length result.number ≡ word_of octet }
{
    let number = word_number(octet);
    let length = word_length(octet);
    CodeWord { number, length }
}

/// The number that the word of an octet is.
fn word_number(octet: u8) -> u32
    ensures { result ≡ slice_index NUMBERS octet }
{
    NUMBERS[usize::from(octet)]
}

/// How many bits the word of an octet has.
fn word_length(octet: u8) -> u32
    ensures { result ≡ slice_index LENGTHS octet }
{
    u32::from(LENGTHS[usize::from(octet)])
}
