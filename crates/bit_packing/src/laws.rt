//! What all of packing stands on, as the contract of a function that does nothing.
ghost use Rattle.bit_packing.specs.Laws.{OnePackedValue};

/// A word is the packing of at most one value of a type.
#[tactic(auto, using(crate::specs::Packings::one_value))]
pub fn one_packed_value_law()
    ensures { OnePackedValue }
{}
