//! The load of a row without a join, and that nothing is missing.
ghost use Rattle.element_load.specs.LoadLaws.{AllArrive, LoadsBalance, LoadsFall, LoadsOfRuns};
ghost use Rattle.element_load.specs.LoadLaws.{WeightsAreExact, WeightsAreOnly};

/// The weights that are computed from the end of a flat list stand in the relation between an element's
/// channels, with 2 at each to-client endpoint (`exact`); and where no element is a join, weights that stand
/// in it are those (`only`).
pub fn weights_agree()
    ensures exact { WeightsAreExact }
    ensures only { WeightsAreOnly }
{}

/// What happens to the load in one cycle of a run, whatever stands before the to-server channels: what comes
/// in with its weight is stored, goes out with its weight, or is spent; no more is taken off than there is;
/// and where nothing is spent and nothing offered to the clients, nothing is stored or offered at all.
pub fn load_balances<C>()
    ensures { LoadsBalance C }
{}

/// The law of the load in one cycle of a run: it loses two for each word that goes out, one for each word
/// that a storage element takes and one for each word that a branch takes, and nothing else happens to
/// it. So no cycle lets it rise, and it falls in each cycle in which all to-client channels are ready and
/// load is left.
pub fn load_falls<C>()
    ensures { LoadsFall C }
{}

/// The load behind a run, with all that was lost, is the weight of all values that came in or stand in line;
/// so it is at most that many times the greatest weight of a to-server channel.
pub fn load_is_what_came<C>()
    ensures { LoadsOfRuns C }
{}

/// Nothing is missing: after as many cycles with all to-client channels ready and nothing joining the lines
/// as the load was before them, no value stands in line, no channel offers a word, and what was
/// transferred on each channel is the whole stream of what was transferred on the to-server channels.
pub fn all_arrives<C>()
    ensures { AllArrive C }
{}
