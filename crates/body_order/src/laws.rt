//! What the elements of a body need is what the rules of a design say.
ghost use Rattle.body_order.specs.Cycles.{EachNeeds};
ghost use Rattle.body_order.specs.BodyLaws.{EachOnce, EachCycle, EachSignal};

/// Where no channel is made twice and no two instances have one application id, the first element that
/// makes a source is the only one, so that what elements need is what the rules say.
pub fn needs_law()
    ensures { EachNeeds }
{}

/// Where no name of a design is declared twice, this is so in each body; and then what depends on itself,
/// and what is taken with the wrong signalling, is body by body what the rules say.
pub fn bodies_law()
    ensures once { EachOnce }
    ensures cycles { EachCycle }
    ensures signals { EachSignal }
{}
