//! The law of the reader of designs.
ghost use Rattle.design_reader.specs.DesignTexts.{DesignsFound, DesignsRead, OthersRefused};

/// What `next_design` reads, by its clause: a text of the grammar's designs within the limits (`found`),
/// and each such text is read as the design that it is (`only`). All else is refused at the first token
/// with which no design goes on, or at which a limit is broken (`refused`). It does nothing when it
/// runs.
#[tactic(auto, using(crate::specs::DesignTexts::designs_found, crate::specs::DesignTexts::designs_only, crate::specs::DesignTexts::others_refused))]
pub fn design_law()
    ensures found { DesignsFound }
    ensures only { DesignsRead }
    ensures refused { OthersRefused }
{}
