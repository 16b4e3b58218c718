//! Two places for words.
ghost use Rattle.element_wires.specs.WireLaws.{StagesRun};

/// Two valid bits and two words, wired as the table of lowering says, are a stage in every run that begins
/// with both valid bits 0; and the second place is used only where the first one is.
pub fn stages_store<C>()
    ensures { StagesRun C }
{}
