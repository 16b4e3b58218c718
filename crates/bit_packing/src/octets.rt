//! Words as octets, the least significant octet first.
ghost use Rattle.std.specs.Prelude.{◌≡◌, ◌≢◌, ◌<◌, ◌≤◌, ◌^◌, ◌↔◌, List, Bool, IsTrue, IfOk, ◌+◌, ◌/◌, length};
ghost use Rattle.esi_base.specs.Octets.{octets_of, octet_count};
ghost use Rattle.esi_base.specs.Parts.{whole};
ghost use Rattle.channel_types.specs.Types.{IsGoodType, width_of};
ghost use Rattle.bit_packing.specs.Packing.{IsPacking};
ghost use Rattle.bit_packing.specs.Voids.{SetsVoid};
ghost use Rattle.bit_packing.specs.OctetRules.{octets_for, bits_from, SetsSpare, word_from};

use crate::voids::sets_void;
use esi_base::Word;
use esi_base::word::WORD_BITS;
use esi_types::EsiType;

/// The rules that octets break which are no packing of a type.
#[derive(Clone, Copy, Debug, PartialEq, Eq)]
pub enum Unpacked {
    /// There are not as many octets as hold a value of the type.
    Count,
    /// A bit past the type's width is 1.
    Spare,
    /// A bit of a void is 1.
    VoidBit,
}

impl Unpacked {
    ghost use Rattle.bit_packing.specs.OctetRules.{rule_number};

    /// The number of the rule: 111, 112 or 113.
    pub fn number(self) -> u16
        ensures { result ≡ rule_number self }
    {
        match self {
            Unpacked::Count => 111,
            Unpacked::Spare => 112,
            Unpacked::VoidBit => 113,
        }
    }
}

/// Writes the octets of the word, for a slice of as many octets as hold it. It takes no memory.
pub fn to_octets(word: &Word, out: &mut [u8])
    requires { length out.old ≡ octet_count word.now }
    ensures { out.new ≡ octets_of word.now }
{
    for at in 0..word.width().div_ceil(8) {
        out[at as usize] = word.octet(at);
    }
}

/// The packing of a value of the type whose octets these are. It takes no memory.
pub fn from_octets(octets: &[u8], ty: &EsiType) -> Result<Word, Unpacked>
    requires { IsGoodType ty.now }

    // It gives exactly the packings of the type, each for its own octets.
    ensures word { (word : List Bool) → (result ≡ Ok word) ↔ (IsPacking word ty.now × (octets_of word ≡ octets.now)) }
    ensures packing { IfOk result (λ word. IsPacking word ty.now) }

    // The number of octets is checked first, then the bits past the width, then those of voids.
    ensures count { (result ≡ Err Unpacked.Count) ↔ (length octets.now ≢ octets_for ty.now) }
    ensures spare { (result ≡ Err Unpacked.Spare) ↔ ((length octets.now ≡ octets_for ty.now) × SetsSpare octets.now ty.now) }
    ensures void_bit { (result ≡ Err Unpacked.VoidBit) ↔ ((length octets.now ≡ octets_for ty.now) × (whole 8 octets.now < 2 ^ width_of ty.now) × SetsVoid (bits_from octets.now ty.now) ty.now) }

    // The answer is that of the tests in their order.
    ensures computed { result ≡ word_from octets.now ty.now }
{
    word_of(octets, ty)
}

/// The same, by the tests in their order.
fn word_of(octets: &[u8], ty: &EsiType) -> Result<Word, Unpacked>
    requires { IsGoodType ty.now }
    ensures { result ≡ word_from octets.now ty.now }
{
    let width = ty.width();
    let count = width.div_ceil(8);
    if octets.len() != count as usize {
        return Err(Unpacked::Count);
    }
    if has_spare(octets, width) {
        return Err(Unpacked::Spare);
    }
    let word = Word::from_octets(width, octets);
    if sets_void(&word, ty, 0) {
        return Err(Unpacked::VoidBit);
    }
    Ok(word)
}

/// Whether a bit past the width is 1, in as many octets as hold it.
fn has_spare(octets: &[u8], width: u32) -> bool
    requires low { 1 ≤ width }
    requires high { width ≤ WORD_BITS }
    requires count { length octets.now ≡ (width + 7) / 8 }
    ensures { IsTrue result ↔ (2 ^ width ≤ whole 8 octets.now) }
{
    let last = octets.len() - 1;
    let used = width - 8 * last as u32;
    u32::from(octets[last]) >> used != 0
}
