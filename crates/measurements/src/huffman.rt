//! The Huffman code of header blocks.
ghost use Rattle.std.specs.Prelude.{◌≤◌, length};

use esi_base::{LONGEST_TEXT, Octets};
use hpack_huffman::{huff_decode, huff_encode};
use std::alloc::Global;

/// Writes a text in the code so often, and gives the octets written.
pub fn encode(alloc: Global, rounds: u32, text: &[u8]) -> Option<usize>
    requires { length text.now ≤ LONGEST_TEXT }
{
    let mut out = Octets::new(alloc);
    for _ in 0..rounds {
        out.truncate(0);
        huff_encode(text, &mut out).ok()?;
    }
    Some(out.len())
}

/// Writes a text in the code, reads it back so often, and gives the octets read.
pub fn decode(alloc: Global, rounds: u32, text: &[u8]) -> Option<usize>
    requires { length text.now ≤ LONGEST_TEXT }
{
    let mut coded = Octets::new(alloc);
    huff_encode(text, &mut coded).ok()?;
    let mut out = Octets::new(alloc);
    for _ in 0..rounds {
        out.truncate(0);
        huff_decode(coded.as_slice(), &mut out).ok()?;
    }
    Some(out.len())
}
