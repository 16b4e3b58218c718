//! What holds of every printed text, as the contracts of functions that do nothing.
ghost use Rattle.verilog_roundtrip.specs.Whole.{TextsAreCut, GoodTextsAreCut};

/// The text of a module whose tokens can be spelled is cut into those tokens. It does nothing when it runs.
#[tactic(auto, using(crate::specs::Whole::texts_are_cut))]
pub fn texts_are_cut_law()
    ensures { TextsAreCut }
{}

/// The text of a good module is cut into the module's tokens. It does nothing when it runs.
#[tactic(auto, using(crate::specs::Whole::good_texts_are_cut))]
pub fn good_texts_are_cut_law()
    ensures { GoodTextsAreCut }
{}
