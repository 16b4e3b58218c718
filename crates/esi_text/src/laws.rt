//! What holds of design texts, whoever reads them, as the contract of a function that does nothing.
ghost use Rattle.esi_text.specs.Designs.{OneDesign};

/// No text has two designs: what a tree of the grammar says of a text, offsets included, is the one thing
/// that any tree of it says.
pub fn one_design_law()
    ensures { OneDesign }
{}
