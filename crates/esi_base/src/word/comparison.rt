//! Words compared, and the choice by the answer.
ghost use Rattle.std.specs.Prelude.{◌≡◌, ◌==◌, if◌then◌else◌, [], ◌∷◌, length, IsTrue, ◌↔◌};
ghost use Rattle.esi_base.specs.Bits.{number_of, same_bits};

use super::Word;

impl Word {
    /// Whether the bits are those of a word of the same width.
    pub fn equal(&self, other: &Word) -> Word
        requires { length self.now ≡ length other.now }
        ensures { result ≡ same_bits self.now other.now ∷ [] }
    {
        Word::of_test(self == other)
    }

    /// The first of two words of the same width where this one, of one bit, is 1, else the second.
    pub fn choose(&self, yes: &Word, no: &Word) -> Word
        requires test { length self.now ≡ 1 }
        requires same { length yes.now ≡ length no.now }
        ensures bits { result ≡ (if number_of self.now == 1 then yes.now else no.now) }
        ensures width { length result ≡ length yes.now }
    {
        if self.bit(0) { *yes } else { *no }
    }
}

impl PartialEq for Word {
    ghost use Rattle.std.specs.Cmp.{bool_eq_equiv, partial_equiv_from_equiv};
    ghost use Rattle.std.specs.Cmp.Lexicographic.{lists_equiv};

    ghost eq = { same_bits };

    ghost laws = { partial_equiv_from_equiv (lists_equiv bool_eq_equiv) };

    fn eq(&self, other: &Word) -> bool
        ensures test { result ≡ same_bits self.now other.now }
        ensures same { IsTrue result ↔ (self.now ≡ other.now) }
    {
        self.width == other.width && self.limbs == other.limbs
    }
}

impl Eq for Word {
    ghost use Rattle.std.specs.Cmp.{bool_eq_equiv};
    ghost use Rattle.std.specs.Cmp.Lexicographic.{lists_equiv};

    ghost laws = { lists_equiv bool_eq_equiv };
}
