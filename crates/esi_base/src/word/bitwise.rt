//! Words taken bit by bit.
ghost use Rattle.std.specs.Prelude.{◌≡◌, ◌&&◌, ◌||◌, not, map, length};
ghost use Rattle.std.specs.Bool.{xor};
ghost use Rattle.esi_base.specs.Bits.{zip_bits};

use super::{Word, limbs};

impl Word {
    /// Each bit inverted.
    pub fn bit_not(&self) -> Word
        ensures bits { result ≡ map not self.now }
        ensures width { length result ≡ length self.now }
    {
        Word {
            limbs: limbs::not(&self.limbs, self.width),
            width: self.width,
        }
    }

    /// Bit by bit with a word of the same width, whether both are 1.
    pub fn bit_and(&self, other: &Word) -> Word
        requires { length self.now ≡ length other.now }
        ensures bits { result ≡ zip_bits ◌&&◌ self.now other.now }
        ensures width { length result ≡ length self.now }
    {
        Word {
            limbs: limbs::and(&self.limbs, &other.limbs),
            width: self.width,
        }
    }

    /// Bit by bit with a word of the same width, whether one or both are 1.
    pub fn bit_or(&self, other: &Word) -> Word
        requires { length self.now ≡ length other.now }
        ensures bits { result ≡ zip_bits ◌||◌ self.now other.now }
        ensures width { length result ≡ length self.now }
    {
        Word {
            limbs: limbs::or(&self.limbs, &other.limbs),
            width: self.width,
        }
    }

    /// Bit by bit with a word of the same width, whether exactly one is 1.
    pub fn bit_xor(&self, other: &Word) -> Word
        requires { length self.now ≡ length other.now }
        ensures bits { result ≡ zip_bits xor self.now other.now }
        ensures width { length result ≡ length self.now }
    {
        Word {
            limbs: limbs::xor(&self.limbs, &other.limbs),
            width: self.width,
        }
    }
}
