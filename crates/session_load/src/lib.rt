//! The load of a session: a row of elements between values that wait, rings before it and rings behind it.
//! There is no code here but the law itself, which does nothing when it runs.
#![tactic(auto)]

ghost use Rattle.session_load.specs.Session.{SessionsFall};

/// The law of a session's load, for a row without a join: in each cycle in which values are taken while there
/// is room, and handed while there are any, the load loses one for each value that is taken, goes out or is
/// handed, and what is spent in the elements; so it falls while there is any.
pub fn session_load_falls<C>()
    ensures { SessionsFall C }
{}
