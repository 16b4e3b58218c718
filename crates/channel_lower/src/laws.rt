//! What can be lowered.
ghost use Rattle.channel_lower.specs.Fitted.{FittingListsCanBeLowered};

/// A good flat list whose parts are good and fit the channels between which they stand, as `flat_design` lays it out of plans in which
/// they do, can be lowered. It does nothing when it runs.
pub fn fitting_lists_can_be_lowered()
    ensures { FittingListsCanBeLowered }
{}
