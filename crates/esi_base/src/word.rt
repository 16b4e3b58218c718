//! A word of bits: what the nets of a design carry.
ghost use Rattle.std.specs.Prelude.{◌≡◌, ◌+◌, ◌/◌, ◌<◌, ◌≤◌, ◌^◌, Some, slice_get, length, replicate, false, [], ◌∷◌};
ghost use Rattle.esi_base.specs.Bits.{bits_of, number_of};
ghost use Rattle.esi_base.specs.Parts.{part};

use std::marker::Model;

mod arithmetic;
mod bitwise;
mod comparison;
mod limbs;
mod pieces;

use limbs::{LIMB_BITS, LIMB_OCTETS};

/// The widest word: 1,024 bits. It bounds what one copy of a word costs, and what one net holds.
pub const WORD_BITS: u32 = 1_024;

const _: () = prove!(WORD_BITS == 1024);

/// A word of 1 to 1,024 bits. Contracts see the list of its bits, the least significant one first. It
/// is a plain copy of 16 limbs and a width, and no call on it takes memory.
#[derive(Clone, Copy, Debug)]
pub struct Word {
    limbs: [u64; 16],
    width: u32,
}

impl Model for Word {
    ghost use Rattle.std.specs.Prelude.{List, Bool};

    ghost Value = { List Bool };

    ghost use Rattle.esi_base.specs.Words.{bits_in, fields_of, IsWord};
    ghost use Rattle.esi_base.specs.WordInverse.{fields_of-bits_in};

    ghost view = { bits_in };

    ghost invariant = { IsWord };

    ghost inverse = { fields_of };

    ghost inverse_ok = { fields_of-bits_in };
}

impl Word {
    /// The word of a width, of 1 to 1,024 bits, whose bits are all 0.
    pub fn zero(width: u32) -> Word
        requires low { 1 ≤ width }
        requires high { width ≤ 1024 }
        ensures { result ≡ replicate width false }
    {
        Word {
            limbs: [0; 16],
            width,
        }
    }

    /// The word of a width, of 1 to 1,024 bits, whose bits are those of a number that fits.
    pub fn from_u128(width: u32, value: u128) -> Word
        requires low { 1 ≤ width }
        requires high { width ≤ 1024 }
        requires fits { value < 2 ^ width }
        ensures { result ≡ bits_of width value }
    {
        let mut limbs = [0; 16];
        limbs[0] = (value % (1 << LIMB_BITS)) as u64;
        limbs[1] = (value >> LIMB_BITS) as u64;
        Word { limbs, width }
    }

    /// The word of one bit that says whether a test holds.
    fn of_test(test: bool) -> Word
        ensures { result ≡ test ∷ [] }
    {
        Word::from_u128(1, u128::from(test))
    }

    /// How many bits the word has: 1 to 1,024.
    pub fn width(&self) -> u32
        ensures bits { result ≡ length self.now }
        ensures low { 1 ≤ result }
        ensures high { result ≤ 1024 }
    {
        self.width
    }

    /// The bit at an index below the width; index 0 is the least significant bit.
    pub fn bit(&self, at: u32) -> bool
        requires { at < length self.now }
        ensures { slice_get self.now at ≡ Some result }
    {
        let limb = self.limbs[(at / LIMB_BITS) as usize];
        (limb >> (at % LIMB_BITS)) % 2 == 1
    }

    /// The octet at an index below 128; index 0 is the least significant octet, and the bits past the
    /// width are 0.
    pub fn octet(&self, at: u32) -> u8
        requires { at < 128 }
        ensures { result ≡ part 8 (number_of self.now) at }
    {
        let limb = self.limbs[(at / LIMB_OCTETS) as usize];
        ((limb >> (8 * (at % LIMB_OCTETS))) % (1 << 8)) as u8
    }

    /// The 64 bits from bit `64 * at` on, for an index below the width divided by 64, rounded up. The bits
    /// past the width are 0.
    pub fn limb(&self, at: u32) -> u64
        requires { at < (length self.now + 63) / 64 }
        ensures { result ≡ part 64 (number_of self.now) at }
    {
        prove!(self.width <= 1024);
        self.limbs[at as usize]
    }
}
