//! From octets to the text that they stand for.
ghost use Rattle.std.specs.Prelude.{◌≡◌, ◌⊎◌, ◌<◌, ◌+◌, ◌*◌, ℕ, IfOk, OnOk, OnErr, IsOk, IsErrOf, List, length, take, drop, slice_index};
ghost use Rattle.hpack_huffman.specs.Code.{AreWordsOf, HoldsEnd, IsUnpadded, bits_of};
ghost use Rattle.hpack_huffman.specs.Decoding.{decoded, onto};
ghost use Rattle.hpack_huffman.specs.Halves.{half_turn, octet_turn, read_from};
ghost use Rattle.hpack_huffman.specs.Additions.{AddsText};
ghost use Rattle.esi_base.specs.Answers.{AnswersAs};
ghost use Rattle.esi_base.specs.declared.stop.Stop.TheVariants.{Refused, NoMemory};

use crate::steps::{NEXT_NODES, SYMBOLS};
use crate::stop::{HuffStop, HuffmanRule};
use esi_base::{Octets, Stop};

/// How many of the first nodes stand for padding: each stands for as many ones as its number, and
/// padding is fewer than 8 of them, so that no octet is spent on nothing.
const PADDING_NODES: u8 = 8;

const _: () = prove!(PADDING_NODES == 8);

/// Adds at the end of `out` the text that octets stand for: whole words of the code, and fewer than
/// 8 ones after them (RFC 7541, section 5.2). Where it fails `out` stays as it was.
pub fn huff_decode(octets: &[u8], out: &mut Octets) -> Result<(), HuffStop>
    // It adds a text exactly where the octets are the code of one.
    ensures found { OnOk result (AddsText (bits_of octets.now) out.old out.new) }
    ensures only { (text : List ℕ) → AreWordsOf (bits_of octets.now) text → IsOk result ⊎ IsErrOf result NoMemory }

    // An end of string among the words is reported exactly where it stands there.
    ensures end_of_string { IsErrOf result (Refused HuffmanRule.EndOfString) → HoldsEnd (bits_of octets.now) }
    ensures end_of_string_only { HoldsEnd (bits_of octets.now) → IsErrOf result (Refused HuffmanRule.EndOfString) ⊎ IsErrOf result NoMemory }

    // Padding is reported exactly where neither holds.
    ensures padding { IsErrOf result (Refused HuffmanRule.Padding) → IsUnpadded (bits_of octets.now) }
    ensures padding_only { IsUnpadded (bits_of octets.now) → IsErrOf result (Refused HuffmanRule.Padding) ⊎ IsErrOf result NoMemory }

    ensures unchanged { OnErr result (out.new ≡ out.old) }

    // The answer is that of reading bit by bit.
    ensures exact { AnswersAs (λ done. drop (length out.old) out.new) (decoded octets.now) result }
{
    let len = out.len();
    match read_code(octets, out) {
        Ok(()) => Ok(()),
        Err(stop) => {
            out.truncate(len);
            Err(stop)
        }
    }
}

/// The same, but that symbols may be left after the text that was there where it fails.
fn read_code(octets: &[u8], out: &mut Octets) -> Result<(), HuffStop>
    ensures exact { AnswersAs (λ done. drop (length out.old) out.new) (decoded octets.now) result }
    ensures prefix { take (length out.old) out.new ≡ out.old }
{
    match read_octets(octets, out) {
        Ok(node) if node < PADDING_NODES => Ok(()),
        Ok(_) => Err(Stop::Refused(HuffmanRule::Padding)),
        Err(stop) => Err(stop),
    }
}

/// Adds the symbols that octets stand for, and gives the node after them.
fn read_octets(octets: &[u8], out: &mut Octets) -> Result<u8, HuffStop>
    ensures ok { IfOk result (λ node. onto out.old (read_from 0 octets.now) ≡ Some (out.new, node)) }
    ensures end_of_string { IsErrOf result (Refused HuffmanRule.EndOfString) → read_from 0 octets.now ≡ None }
    ensures no_padding { IsErrOf result (Refused HuffmanRule.Padding) → ⊥ }
    ensures prefix { take (length out.old) out.new ≡ out.old }
{
    let mut node = 0;
    for octet in octets {
        match read_octet(node, *octet, out) {
            Ok(next) => node = next,
            Err(stop) => return Err(stop),
        }
    }
    Ok(node)
}

/// Adds the symbols whose words end in an octet that follows a node, and gives the node after it.
fn read_octet(node: u8, octet: u8, out: &mut Octets) -> Result<u8, HuffStop>
    ensures ok { IfOk result (λ next. onto out.old (octet_turn node octet) ≡ Some (out.new, next)) }
    ensures end_of_string { IsErrOf result (Refused HuffmanRule.EndOfString) → octet_turn node octet ≡ None }
    ensures no_padding { IsErrOf result (Refused HuffmanRule.Padding) → ⊥ }
    ensures prefix { take (length out.old) out.new ≡ out.old }
{
    match read_half(node, octet / 16, out) {
        Ok(next) => read_half(next, octet % 16, out),
        Err(stop) => Err(stop),
    }
}

/// Adds the symbol whose word ends in the four bits after a node, where one ends there, and gives the
/// node after them.
#[tactic(auto, unfolding(crate::specs::Halves::half_turn))]
fn read_half(node: u8, half: u8, out: &mut Octets) -> Result<u8, HuffStop>
    requires { half < 16 }
    ensures ok { IfOk result (λ next. onto out.old (half_turn node half) ≡ Some (out.new, next)) }
    ensures end_of_string { IsErrOf result (Refused HuffmanRule.EndOfString) → half_turn node half ≡ None }
    ensures no_padding { IsErrOf result (Refused HuffmanRule.Padding) → ⊥ }
    ensures unchanged { OnErr result (out.new ≡ out.old) }
{
    let symbol = symbol_after(node, half);
    let next = node_after(node, half);
    if symbol < 256 {
        out.add(symbol as u8)?;
        Ok(next)
    } else if symbol == 256 {
        Err(Stop::Refused(HuffmanRule::EndOfString))
    } else {
        Ok(next)
    }
}

/// The symbol whose word ends in the four bits after a node: 256 for the end of string, 257 where
/// none ends there.
fn symbol_after(node: u8, half: u8) -> u16
    requires { half < 16 }
    ensures { result ≡ slice_index SYMBOLS (16 * node + half) }
{
    SYMBOLS[16 * usize::from(node) + usize::from(half)]
}

/// The node after the four bits that follow a node.
fn node_after(node: u8, half: u8) -> u8
    requires { half < 16 }
    ensures { result ≡ slice_index NEXT_NODES (16 * node + half) }
{
    NEXT_NODES[16 * usize::from(node) + usize::from(half)]
}
