//! Sessions that the rule makes.
ghost use Rattle.std.specs.Prelude.{◌≡◌, List, ◌∷◌, ◌++◌};
ghost use Rattle.esi_links.specs.declared.links.Entry.TheVariants.{Happened};
ghost use Rattle.serve_acts.specs.Legal.{IsLegal};
ghost use Rattle.serve_acts.specs.Log.{log};
ghost use Rattle.serve_acts.specs.Served.{Served};
ghost use Rattle.serve_rule.specs.Moves.{Moves};
ghost use Rattle.serve_rule.specs.Offers.{turn_entries};
ghost use Rattle.serve_rule.specs.Reading.{Reader};
ghost use Rattle.serve_rule.specs.Turns.{Turn, session, session_of, worked};

/// Each act of a session that the rule makes is one that the acts before it allow, whatever events come and
/// whatever is taken of what is sent. So all laws of serving hold of it.
#[tactic(auto, using(crate::specs::SessionLaws::session_legal))]
pub fn session_law<S>()
    ensures legal { (served : Served S) (reader : Reader served) (moves : Moves served) (turns : List Turn)
        → IsLegal served (session served reader moves turns) }
{}

/// A session that the rule makes is what the rule makes of its log: two sessions with one log are the same
/// session, act by act. So nothing is late: the journal, and every other question of a session, is a function
/// of what is served and of the log.
#[tactic(auto, using(crate::specs::SessionLaws::session_is))]
pub fn log_law<S>()
    ensures played { (served : Served S) (reader : Reader served) (moves : Moves served) (turns : List Turn)
        → session_of served reader moves (log served.replies (session served reader moves turns)) ≡ session served reader moves turns }
    ensures same { (served : Served S) (reader : Reader served) (moves : Moves served) (turns others : List Turn)
        → log served.replies (session served reader moves turns) ≡ log served.replies (session served reader moves others)
        → session served reader moves turns ≡ session served reader moves others }
{}

/// What a turn adds to the log: its event; the drop of a connection that opened and found no room; then, for
/// each open connection in order, one send where octets wait on it, which offers all of them, and its drop
/// where it has ended by an error. There is no other send, and no other drop.
pub fn offer_law<S>()
    ensures turn { (served : Served S) (reader : Reader served) (moves : Moves served) (turn : Turn) (turns : List Turn)
        → log served.replies (session served reader moves (turn ∷ turns))
        ≡ log served.replies (session served reader moves turns) ++ Happened turn.event ∷ turn_entries served.replies turn (worked served reader moves turn.event (session served reader moves turns)) }
{}
