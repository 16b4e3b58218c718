//! Runs, from their start and from their end.
ghost use Rattle.element_laws.specs.Histories.{TransfersInOrder};

/// A history lists cycles from the newest back; what it says of a channel's transfers is what its run says
/// from the start on: the words of the run's cycles, in order.
pub fn transfers_are_in_order<C>()
    ensures { TransfersInOrder C }
{}
