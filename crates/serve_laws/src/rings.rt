//! What goes through the rings.
ghost use Rattle.std.specs.Prelude.{◌≡◌, ◌<◌, ℕ, Some, List, ◌∷◌, ◌++◌};
ghost use Rattle.cycle_rules.specs.Circuit.{Bits};
ghost use Rattle.cycle_rules.specs.Cycle.{HasRings};
ghost use Rattle.cycle_rules.specs.Rings.{ring_at, front_of};
ghost use Rattle.serve_acts.specs.Acts.{Act};
ghost use Rattle.serve_acts.specs.Acts.Act.{Hands};
ghost use Rattle.serve_acts.specs.Attachments.{handed_on};
ghost use Rattle.serve_acts.specs.Legal.{IsLegal};
ghost use Rattle.serve_acts.specs.Machines.{machine};
ghost use Rattle.serve_acts.specs.Served.{Served};
ghost use Rattle.serve_laws.specs.Rings.{words_in, words_out, words_taken};

/// The words taken on a channel went into the circuit, in order, or are in its ring; the words that came out
/// of the circuit were handed, in order, or are in their ring. A hand finds its ring not empty, and each
/// channel keeps its ring.
pub fn rings_law<S>()
    ensures entering { (served : Served S) (channel : ℕ) (t : List Act)
        → channel < served.circuit.to_server_count → IsLegal served t
        → words_taken channel t ≡ words_in served channel t ++ ring_at (machine served t).to_server channel }
    ensures leaving { (served : Served S) (channel : ℕ) (t : List Act)
        → channel < served.circuit.to_client_count → IsLegal served t
        → words_out served channel t ≡ handed_on channel t ++ ring_at (machine served t).to_client channel }
    ensures front { (served : Served S) (channel conn stream : ℕ) (word : Bits) (t : List Act)
        → IsLegal served (Hands channel conn stream word ∷ t)
        → front_of (machine served t).to_client channel ≡ Some word }
    ensures rings { (served : Served S) (t : List Act) → HasRings served.circuit (machine served t) }
{}
