//! Constants, with hexadecimal digits.
ghost use Rattle.std.specs.Prelude.{◌≡◌, ◌++◌, ◌<◌, ◌≤◌, OnOk};
ghost use Rattle.esi_base.specs.Bits.{number_of};
ghost use Rattle.esi_base.specs.Parts.{part};
ghost use Rattle.small_text.specs.Hexadecimal.{hex_digit as digit_for};
ghost use Rattle.verilog_tokens.specs.Spelling.{constant_text, hex_digits};

use channel_types::printing::push_number;
use esi_base::{NoMemory, Octets, Word};

/// How many bits a digit stands for.
const DIGIT_BITS: u32 = 4;

const _: () = prove!(DIGIT_BITS == 4);

/// Adds a constant: `8'h0f`.
pub(crate) fn put_constant(text: &mut Octets, word: &Word) -> Result<(), NoMemory>
    ensures { OnOk result (text.new ≡ text.old ++ constant_text word.now) }
{
    let width = word.width();
    push_number(text, width as u128)?;
    text.push_all(b"'h")?;
    put_digits(text, word, (width + 3) / DIGIT_BITS)
}

/// Adds the digits of a word at the places below a count, the highest place first.
fn put_digits(text: &mut Octets, word: &Word, count: u32) -> Result<(), NoMemory>
    requires { count ≤ 256 }
    ensures { OnOk result (text.new ≡ text.old ++ hex_digits count (number_of word.now)) }
{
    for turn in 0..count {
        text.add(digit_at(word, count - 1 - turn))?;
    }
    Ok(())
}

/// The digit of a word at a place, which stands for the four bits there.
fn digit_at(word: &Word, place: u32) -> u8
    requires { place < 256 }
    ensures { result ≡ digit_for (part 4 (number_of word.now) place) }
{
    let octet = word.octet(place / 2);
    hex_digit((octet >> (4 * (place % 2))) % 16)
}

/// The hexadecimal digit of a number, where the letters are lower-case.
fn hex_digit(number: u8) -> u8
    requires { number < 16 }
    ensures { result ≡ digit_for number }
{
    if number < 10 {
        b'0' + number
    } else {
        b'a' + (number - 10)
    }
}
