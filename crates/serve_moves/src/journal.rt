//! A journal that is played again by the rule.
ghost use Rattle.std.specs.Prelude.{◌≡◌, List};
ghost use Rattle.serve_acts.specs.Journal.{all_handed, all_taken};
ghost use Rattle.serve_acts.specs.Served.{Served};
ghost use Rattle.serve_moves.specs.Journaled.{journal_moves};
ghost use Rattle.serve_rule.specs.Moves.{own_moves};
ghost use Rattle.serve_rule.specs.Reading.{Reader};
ghost use Rattle.serve_rule.specs.Turns.{Turn, session};

/// The journal of a session gives the moves of the rule: played again on the same turns it makes the same
/// session, act by act.
#[tactic(auto, using(crate::specs::JournaledLaws::journal_again))]
pub fn journal_law<S>()
    ensures again { (served : Served S) (reader : Reader served) (turns : List Turn)
        → session served reader (journal_moves served (all_taken (session served reader (own_moves served) turns)) (all_handed (session served reader (own_moves served) turns))) turns
        ≡ session served reader (own_moves served) turns }
{}
