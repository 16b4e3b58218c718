//! A count and any number of places for words.
ghost use Rattle.element_wires.specs.WireLaws.{FifosRun};

/// A count and `depth` words, wired as the table of lowering says, are a fifo of `depth` in every run that
/// begins with count 0 and in which it is read only where it is not empty; and it counts no more than `depth`.
pub fn fifos_store<C>()
    ensures { FifosRun C }
{}
