//! The reader over the history of each connection.
ghost use Rattle.std.specs.Prelude.{List};
ghost use Rattle.serve_acts.specs.Legal.{IsLegal};
ghost use Rattle.serve_acts.specs.Served.{Served};
ghost use Rattle.serve_reader.specs.Reader.{Content, reader_of};
ghost use Rattle.serve_rule.specs.Moves.{Moves};
ghost use Rattle.serve_rule.specs.Turns.{Turn, session};

/// The history of each connection gives a reader of the rule: so each session that reads by it is legal,
/// whatever is asked in the content of a call, as long as it is in range.
#[tactic(auto, using(serve_rule::specs::SessionLaws::session_legal))]
pub fn reading_law<S>()
    ensures legal { (served : Served S) (content : Content served) (moves : Moves served) (turns : List Turn)
        → IsLegal served (session served (reader_of served content) moves turns) }
{}
