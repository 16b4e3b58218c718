//! The journal played again.
ghost use Rattle.std.specs.Prelude.{◌≡◌, List, ◌∷◌};
ghost use Rattle.serve_acts.specs.Acts.{Act};
ghost use Rattle.serve_acts.specs.Acts.Act.{Cycles};
ghost use Rattle.serve_acts.specs.Journal.{all_handed, all_taken, cycles};
ghost use Rattle.serve_acts.specs.Legal.{IsLegal};
ghost use Rattle.serve_acts.specs.Machines.{is_settled, machine};
ghost use Rattle.serve_acts.specs.Served.{Served};
ghost use Rattle.serve_laws.specs.Replay.{partway, replayed};

/// Hardware. At the end of a cycle the circuit, its registers and all rings are those of the journal played
/// again for as many cycles: what was taken in each cycle, and which channels handed in it, is all that
/// the hardware has seen. Within a cycle they are those of the part of it that is done.
pub fn replay_law<S>()
    ensures replays { (served : Served S) (t : List Act) → IsLegal served (Cycles ∷ t)
        → machine served (Cycles ∷ t) ≡ replayed served (all_taken (Cycles ∷ t)) (all_handed (Cycles ∷ t)) (cycles (Cycles ∷ t)) }
    ensures partway { (served : Served S) (t : List Act) → IsLegal served t
        → machine served t ≡ partway served (is_settled t) (cycles t) (all_taken t) (all_handed t) }
{}
