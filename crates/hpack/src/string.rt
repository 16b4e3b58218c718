//! Strings (RFC 7541, section 5.2).
ghost use Rattle.std.specs.Prelude.{◌≡◌};
ghost use Rattle.esi_base.specs.Answers.{AnswersAs, Reads};
ghost use Rattle.hpack.specs.Strings.{first_bit};
ghost use Rattle.hpack.specs.StringReading.{head_at, span_at, text_of, body_at, string_at};
ghost use Rattle.hpack.specs.Rules.{text_in_block};
ghost use Rattle.hpack_huffman.specs.Decoding.{decoded};

use crate::integer::integer_at;
use crate::limits::{MAX_HEADER_LIST_SIZE, STRING_BITS};
use crate::stop::{BlockRule, HpackStop};
use esi_base::{List, Octets, Stop};
use hpack_huffman::{HuffmanRule, huff_decode};
use std::alloc::Global;

/// What stands before the octets of a string.
#[derive(Clone, Copy, Debug)]
pub(crate) struct StringHead {
    /// Whether the octets are Huffman coded.
    coded: bool,
    /// How many octets follow.
    count: u32,
}

/// The string at the front of octets, and the octets after it.
#[tactic(auto, unfolding(crate::specs::StringReading::string_at))]
pub(crate) fn string_at(alloc: Global, octets: &[u8]) -> Result<(Octets, &[u8]), HpackStop>
    ensures { AnswersAs (λ x. (x.0, x.1.now)) (string_at octets.now) result }
{
    let (head, rest) = head_at(octets)?;
    body_at(alloc, head, rest)
}

#[tactic(auto, unfolding(crate::specs::StringReading::head_at))]
fn head_at(octets: &[u8]) -> Result<(StringHead, &[u8]), HpackStop>
    ensures { AnswersAs (λ x. (x.0, x.1.now)) (head_at octets.now) result }
{
    let (count, rest) = integer_at(STRING_BITS, octets)?;
    let coded = first_bit(octets);
    Ok((StringHead { coded, count }, rest))
}

/// The first bit of octets.
fn first_bit(octets: &[u8]) -> bool
    ensures { result ≡ first_bit octets.now }
{
    match octets {
        [octet, ..] => *octet >= 128,
        [] => false,
    }
}

#[tactic(auto, unfolding(crate::specs::StringReading::body_at))]
fn body_at(alloc: Global, head: StringHead, octets: &[u8]) -> Result<(Octets, &[u8]), HpackStop>
    ensures { AnswersAs (λ x. (x.0, x.1.now)) (body_at head octets.now) result }
{
    let (body, rest) = span_at(head.count as usize, octets)?;
    let text = text_of(alloc, head.coded, body)?;
    Ok((text, rest))
}

/// So many octets, and those after them.
fn span_at(count: usize, octets: &[u8]) -> Result<(&[u8], &[u8]), HpackStop>
    ensures { AnswersAs (λ x. (x.0.now, x.1.now)) (span_at count octets.now) result }
{
    if octets.len() < count {
        return Err(Stop::Refused(BlockRule::CutOrTooLarge));
    }
    Ok((&octets[..count], &octets[count..]))
}

/// The text for which octets stand.
fn text_of(alloc: Global, coded: bool, octets: &[u8]) -> Result<Octets, HpackStop>
    ensures { Reads (text_of coded octets.now) result }
{
    if coded {
        decoded(alloc, octets)
    } else {
        Ok(List::from_slice(alloc, octets)?)
    }
}

/// The text whose Huffman code octets are. Memory for it is taken at once: a word has 5 bits at least.
fn decoded(alloc: Global, octets: &[u8]) -> Result<Octets, HpackStop>
    ensures { Reads (text_in_block (decoded octets.now)) result }
{
    let most = octets.len().saturating_mul(2).min(MAX_HEADER_LIST_SIZE);
    let mut text = List::from_vec(Vec::with_capacity(alloc, most)?);
    match huff_decode(octets, &mut text) {
        Ok(()) => Ok(text),
        Err(Stop::Refused(HuffmanRule::Padding)) => Err(Stop::Refused(BlockRule::Padding)),
        Err(Stop::Refused(HuffmanRule::EndOfString)) => Err(Stop::Refused(BlockRule::EndOfString)),
        Err(Stop::NoMemory) => Err(Stop::NoMemory),
    }
}
