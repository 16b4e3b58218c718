//! The rule, computed with the answers that it asks for kept beside the acts.
ghost use Rattle.std.specs.Prelude.{◌≡◌, List};
ghost use Rattle.serve_acts.specs.Served.{Served};
ghost use Rattle.serve_cases.specs.Stored.{stored};
ghost use Rattle.serve_cases.specs.StoredRule.{ByStanding, stored_session};
ghost use Rattle.serve_rule.specs.Moves.{own_moves};
ghost use Rattle.serve_rule.specs.Reading.{Reader};
ghost use Rattle.serve_rule.specs.Turns.{Turn, session};

/// A session that is made with the answers kept beside its acts is the session of the rule, and what is
/// kept then are the answers of its acts.
#[tactic(auto, using(crate::specs::StoredRuleLaws::session_is))]
pub fn kept_answers_law<S>()
    ensures kept { (served : Served S) (reader : Reader served) (by : ByStanding served reader) (turns : List Turn)
        → stored_session served reader by turns ≡ stored served (session served reader (own_moves served) turns) }
{}
