//! Words as numbers of at most 64 bits.
ghost use Rattle.std.specs.Prelude.{◌≡◌, ◌+◌, ◌-◌, ◌≤◌, ◌^◌, [], ◌∷◌, length, nat_lt};
ghost use Rattle.esi_base.specs.Bits.{bits_of, number_of};

use super::Word;

impl Word {
    /// The sum with a word of the same width, of at most 64 bits, modulo 2 to the power of the width.
    pub fn plus(&self, other: &Word) -> Word
        requires same { length self.now ≡ length other.now }
        requires high { length self.now ≤ 64 }
        ensures bits { result ≡ bits_of (length self.now) (number_of self.now + number_of other.now) }
        ensures width { length result ≡ length self.now }
    {
        let sum = u128::from(self.number()) + u128::from(other.number());
        lowest_bits(self.width(), sum)
    }

    /// The difference from a word of the same width, of at most 64 bits, modulo 2 to the power of the
    /// width.
    pub fn minus(&self, other: &Word) -> Word
        requires same { length self.now ≡ length other.now }
        requires high { length self.now ≤ 64 }
        ensures bits { result ≡ bits_of (length self.now) (number_of self.now + 2 ^ length self.now - number_of other.now) }
        ensures width { length result ≡ length self.now }
    {
        let width = self.width();
        let lent = u128::from(self.number()) + (1 << width);
        lowest_bits(width, lent - u128::from(other.number()))
    }

    /// Whether the number is below that of a word of the same width, of at most 64 bits.
    pub fn less(&self, other: &Word) -> Word
        requires same { length self.now ≡ length other.now }
        requires high { length self.now ≤ 64 }
        ensures { result ≡ nat_lt (number_of self.now) (number_of other.now) ∷ [] }
    {
        Word::of_test(self.number() < other.number())
    }

    /// The number that the bits are, at most 64 of them.
    fn number(&self) -> u64
        requires { length self.now ≤ 64 }
        ensures { result ≡ number_of self.now }
    {
        self.limbs[0]
    }
}

/// The lowest bits of a number, 1 to 64 of them.
fn lowest_bits(width: u32, value: u128) -> Word
    requires low { 1 ≤ width }
    requires high { width ≤ 64 }
    ensures { result ≡ bits_of width value }
{
    Word::from_u128(width, value & ((1 << width) - 1))
}
