//! What holds of every flat list whose parts fit.
ghost use Rattle.design_flow.specs.RowLaws.{FlatListsAreRows};
ghost use Rattle.design_flow.specs.WeightLaws.{WeightsFit};

/// A flat list in which each channel is made before it is used and used once (`IsFlatDesign`), and whose elements have as many
/// channels as their parts (`AreCounted`), is a row of elements: so the laws of rows hold of it.
pub fn flat_row_law()
    ensures { FlatListsAreRows }
{}

/// A weight is at most one for each element and one more for each of its further channels, with two for each to-client
/// endpoint, so it fits 32 bits wherever a design keeps its limits.
pub fn weights_fit_law()
    ensures { WeightsFit }
{}
