//! What holds of the text of every module, as the contract of a function that does nothing.
ghost use Rattle.verilog_text.specs.Texts.{TextsAreLaidOut};

/// The text of a module is its tokens in their order, each as it is spelled, with blanks between them.
#[tactic(auto, using(crate::specs::LayoutLaws::texts_are_laid_out))]
pub fn text_law()
    ensures { TextsAreLaidOut }
{}
