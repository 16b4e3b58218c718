//! What the rule takes in a cycle.
ghost use Rattle.std.specs.Prelude.{◌≡◌, ◌<◌, ℕ, false, List};
ghost use Rattle.serve_acts.specs.Acts.{Act};
ghost use Rattle.serve_acts.specs.Legal.{IsLegal};
ghost use Rattle.serve_acts.specs.Machines.{is_settled};
ghost use Rattle.serve_acts.specs.Served.{Served};
ghost use Rattle.serve_moves.specs.Filled.{AreFilled, IsFilled};
ghost use Rattle.serve_rule.specs.Moves.{own_moves};
ghost use Rattle.serve_rule.specs.Reading.{Reader};
ghost use Rattle.serve_rule.specs.Taking.{taken_from};
ghost use Rattle.serve_rule.specs.Turns.{Turn, session};

/// The rings are as full as the calls that wait allow: after the first part of a cycle no call waits on a
/// channel whose ring has room.
#[tactic(auto, using(crate::specs::FilledLaws::filled))]
pub fn filled_law<S>()
    ensures filled { (served : Served S) (channel : ℕ) (t : List Act)
        → channel < served.circuit.to_server_count → IsLegal served t → is_settled t ≡ false
        → IsFilled served channel (taken_from served.circuit.to_server_count served (own_moves served) 0 t) }
{}

/// So it is in each session of the rule, whenever the transfers of a cycle move.
pub fn filled_sessions_law<S>()
    ensures sessions { (served : Served S) (reader : Reader served) (channel : ℕ) (turns : List Turn)
        → channel < served.circuit.to_server_count → AreFilled served channel (session served reader (own_moves served) turns) }
{}
