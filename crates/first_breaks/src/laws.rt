//! What is computed is what the rules say.
ghost use Rattle.first_breaks.specs.Laws.{EachBreak, EachDepends};

/// An element depends on another exactly where the test says so. It does nothing when it runs.
pub fn dependence_law()
    ensures { EachDepends }
{}

/// The first break that is computed of a design is the one by which its checks refuse it, and none is
/// exactly where they are all kept. It does nothing when it runs.
pub fn first_breaks_law()
    ensures { EachBreak }
{}
