//! Composition: what comes out of a row of elements.
ghost use Rattle.element_rows.specs.FlowLaws.{FlowGrows};
ghost use Rattle.element_rows.specs.Rows.{RestIsWhole, RowsFollow};

/// The law of composition, over cycles of any type `C`: in every run of a row of elements in which each
/// to-server channel keeps its refused offers, each channel keeps its refused offers too, and what was
/// transferred on it so far is a prefix of the design's stream function of what was transferred on the
/// to-server channels, each of these lists followed by the word that was refused there in the newest cycle.
pub fn rows_follow_flow<C>()
    ensures { RowsFollow C }
{}

/// The stream function is monotone: where the lists of the to-server channels grow at their ends, the list
/// of each channel grows at its end alone.
pub fn flow_grows()
    ensures { FlowGrows }
{}

/// Nothing is missing at rest: in every run of a row whose to-server channels keep their refused offers, if
/// no channel offers a word in the newest cycle, what was transferred on each channel is the whole stream
/// of what was transferred on the to-server channels.
pub fn rest_is_whole<C>()
    ensures { RestIsWhole C }
{}
