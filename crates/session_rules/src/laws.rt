//! The laws of sessions.
ghost use Rattle.std.specs.Prelude.{◌≡◌, ◌+◌, ◌<◌, ◌++◌, ℕ, Bool, List, length, map};
ghost use Rattle.netlist.specs.Nets.{Bits};
ghost use Rattle.netlist.specs.Plans.{Plan, IsPlan};
ghost use Rattle.netlist.specs.Settled.{IsSettled};
ghost use Rattle.session_rules.specs.SettledWords.{settled_words};
ghost use Rattle.session_rules.specs.Laws.{NewStands, TakesStand, AttachesStand, CyclesStand, CyclesLeave};

/// The settled assignment of a netlist, of which there is one, is the one worked out net by net.
pub fn nets_settle_as_computed()
    ensures { (plan : Plan) → IsPlan plan → (inputs held words : List Bits) → IsSettled plan inputs held words
        → words ≡ settled_words plan inputs held }
{}

/// For any circuit: empty rings and the circuit at its start stand for the empty journal. Where rings and circuit stand for a journal,
/// so they do when a value has joined its ring and is noted as taken, when a stream is noted as attached, and when all transfers have
/// moved, some channels have handed their oldest and are noted, and the cycle is over; and the words that they handed are those that leave
/// the rings in that cycle of the replay. `S` is what the circuit consists of.
pub fn journals_are_replayed<S>()
    ensures starts { NewStands S }
    ensures takes { TakesStand S }
    ensures attaches { AttachesStand S }
    ensures cycles { CyclesStand S }
    ensures leaves { CyclesLeave S }
{}
