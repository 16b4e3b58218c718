//! A design that was read.
ghost use Rattle.std.specs.Prelude.{◌≡◌, ◌≤◌, length, All};
ghost use Rattle.channel_types.specs.Types.{IsGoodType};
ghost use Rattle.esi_base.specs.Places.{place_at};
ghost use Rattle.esi_text.specs.Designs.{IsDesignText};
ghost use Rattle.esi_text.specs.TypesIn.{types_in};
ghost use Rattle.esi_text.specs.declared.limits.TheConstants.{LONGEST_DESIGN};

use crate::places::place_in;
use design_tree::DesignTree;
use esi_base::{Octets, Place};

/// A design that was read. It keeps that it is the design of its text, and that its types are good.
#[derive(Debug, Drop)]
pub struct Design {
    /// The syntax tree, whose leaves have offsets of the text.
    pub tree: DesignTree,
    /// The text, for the places of what later checks refuse.
    pub text: Octets,

    // The text is one of the grammar within its limits, and the tree is its design, offsets included.
    pub ghost means: { ∥ IsDesignText text tree ∥₁ },

    // Each type that stands in the tree is good.
    pub ghost good: { ∥ All IsGoodType (types_in tree) ∥₁ },

    // The text is not too long.
    pub ghost short: { ∥ length text ≤ LONGEST_DESIGN ∥₁ },
}

impl Design {
    /// The place of an offset that the syntax tree has.
    pub fn place(&self, offset: usize) -> Place
        ensures { result ≡ place_at self.now.text offset }
    {
        place_in(self.text.as_slice(), Some(offset))
    }
}
