//! In which order values are taken, and how often.
ghost use Rattle.std.specs.Prelude.{ℕ, List};
ghost use Rattle.serve_acts.specs.Acts.{Act};
ghost use Rattle.serve_acts.specs.Calls.{is_of, taken};
ghost use Rattle.serve_acts.specs.Legal.{IsLegal};
ghost use Rattle.serve_acts.specs.Prefixes.{AtMostOne};
ghost use Rattle.serve_acts.specs.Served.{Served};
ghost use Rattle.serve_laws.specs.Order.{IsInOrder};

/// Order of arrival. A channel's valid calls that were not withdrawn are, in the order in which they
/// arrived: those whose values were taken, in that order, then those that were answered that the session
/// is full, then those that wait. So each value that was taken is that of a valid call, with its word, that
/// was not withdrawn before, and each call of the channel that arrived before it was taken or withdrawn.
#[tactic(auto, using(crate::specs::OrderLaws::in_order))]
pub fn arrival_law<S>()
    ensures order { (served : Served S) (channel : ℕ) (t : List Act) → IsLegal served t → IsInOrder channel t }
{}

/// No two values that were taken are of one stream.
#[tactic(auto, using(crate::specs::OnceLaws::taken_once))]
pub fn taken_once_law<S>()
    ensures once { (served : Served S) (conn stream : ℕ) (t : List Act) → IsLegal served t
        → AtMostOne (is_of conn stream) (taken t) }
{}
