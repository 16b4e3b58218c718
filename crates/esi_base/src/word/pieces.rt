//! Words that are cut out of a word, joined from two, or made of octets.
ghost use Rattle.std.specs.Prelude.{◌≡◌, ◌+◌, ◌-◌, ◌/◌, ◌<◌, ◌≤◌, ◌^◌, ◌++◌, slice_range, length};
ghost use Rattle.esi_base.specs.Bits.{bits_of};
ghost use Rattle.esi_base.specs.Parts.{whole};

use super::{Word, limbs};

impl Word {
    /// The word of a width, of 1 to 1,024 bits, that as many octets as hold it are, the least significant
    /// octet first. Bits past the width have to be 0.
    pub fn from_octets(width: u32, octets: &[u8]) -> Word
        requires low { 1 ≤ width }
        requires high { width ≤ 1024 }
        requires count { length octets.now ≡ (width + 7) / 8 }
        requires fits { whole 8 octets.now < 2 ^ width }
        ensures bits { result ≡ bits_of width (whole 8 octets.now) }
        ensures width { length result ≡ width }
    {
        Word {
            limbs: limbs::from_octets(octets),
            width,
        }
    }

    /// The word of a width, of 1 to 1,024 bits, that as many limbs of 64 bits as hold it are, the least
    /// significant limb first. Bits past the width have to be 0.
    pub fn from_limbs(width: u32, limbs: &[u64]) -> Word
        requires low { 1 ≤ width }
        requires high { width ≤ 1024 }
        requires count { length limbs.now ≡ (width + 63) / 64 }
        requires fits { whole 64 limbs.now < 2 ^ width }
        ensures bits { result ≡ bits_of width (whole 64 limbs.now) }
        ensures width { length result ≡ width }
    {
        Word {
            limbs: limbs::from_limbs(limbs),
            width,
        }
    }

    /// The bits from a low place up to a high one, which is below the width.
    pub fn slice(&self, high: u32, low: u32) -> Word
        requires order { low ≤ high }
        requires within { high < length self.now }
        ensures bits { result ≡ slice_range self.now low (high + 1) }
        ensures width { length result ≡ high - low + 1 }
    {
        prove!(high < self.width);
        let width = high - low + 1;
        Word {
            limbs: limbs::cut(&self.limbs, low, width),
            width,
        }
    }

    /// The bits of another word, and above them those of this one.
    pub fn concat(&self, low: &Word) -> Word
        requires { length self.now + length low.now ≤ 1024 }
        ensures bits { result ≡ low.now ++ self.now }
        ensures width { length result ≡ length self.now + length low.now }
    {
        Word {
            limbs: limbs::joined(&self.limbs, &low.limbs, low.width),
            width: self.width + low.width,
        }
    }
}
