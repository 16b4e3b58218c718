//! What a flat list is, where the plans are good.
ghost use Rattle.flat_design.specs.Fitting.{EachFits};
ghost use Rattle.flat_design.specs.FlatLaws.{EachLaidOut, EachOnce};

/// Good plans, in which each body uses each of its channels once, make a flat list in which each channel is
/// made once, before it is used, numbered as it is made, and used once. A body uses each of its channels
/// once where the places that it speaks of are apart, and are all those of its channels. Where the parts of
/// the plans fit the widths and the signalling of their channels, so do those of the flat list.
pub fn flat_law()
    ensures laid_out { EachLaidOut }
    ensures once { EachOnce }
    ensures fits { EachFits }
{}
