//! The law of the rings over any list of calls: each ring is the list of the words that joined it less
//! those that left it. And the law of a cycle: its calls do what the rules of a cycle say.
ghost use Rattle.std.specs.Prelude.{◌≡◌, ℕ, Bool, List, ◌++◌, ◌≤◌, length};
ghost use Rattle.cycle_rules.specs.Circuit.{Circuit};
ghost use Rattle.cycle_rules.specs.Cycle.{HasRings};
ghost use Rattle.cycle_rules.specs.Rings.{ring_at};
ghost use Rattle.endpoint_hub.specs.Holdings.{Holdings, IsNew};
ghost use Rattle.endpoint_hub.specs.Entries.{words_noted};
ghost use Rattle.endpoint_hub.specs.HubCycle.{Arrival, IsCycle, calls_of_cycle, machine_of};
ghost use Rattle.endpoint_hub.specs.Runs.{Call, IsRun, IsAccounted, words_taken, words_popped, words_pushed, words_handed, streams_attached, times_attached, times_handed};

/// Over any list of calls, what stood in a ring before and what joined it since is, in this order,
/// what left it and what stands in it after; the journal's words of a to-server channel grow by those
/// taken on it, its count of a to-client channel by those handed on it, and its list of attached streams
/// by those attached.
pub fn rings_law()
    ensures { (old new : Holdings) (calls : List Call) (channel : ℕ) → IsRun old calls new
        → IsAccounted old calls new channel }
{}

/// From a new hub on, the words taken on a to-server channel are those popped from it and those in its
/// ring; so are the words that the journal says were taken on it. The words pushed on a to-client channel are
/// those handed on it and those in its ring, and the journal counts as many hands. The journal notes the
/// streams that were attached, in order, and of each channel one at most.
pub fn new_rings_law()
    ensures taken { (old new : Holdings) (calls : List Call) (to_server to_client channel : ℕ)
        → IsNew old to_server to_client → IsRun old calls new
        → words_taken channel calls ≡ words_popped channel calls ++ ring_at new.to_server channel }
    ensures noted { (old new : Holdings) (calls : List Call) (to_server to_client channel : ℕ)
        → IsNew old to_server to_client → IsRun old calls new
        → words_noted channel new.journal.taken
        ≡ words_popped channel calls ++ ring_at new.to_server channel }
    ensures pushed { (old new : Holdings) (calls : List Call) (to_server to_client channel : ℕ)
        → IsNew old to_server to_client → IsRun old calls new
        → words_pushed channel calls
        ≡ words_handed channel calls ++ ring_at new.to_client channel }
    ensures attached { (old new : Holdings) (calls : List Call) (to_server to_client : ℕ)
        → IsNew old to_server to_client → IsRun old calls new
        → new.journal.attached ≡ streams_attached calls }
    ensures attached_once { (old new : Holdings) (calls : List Call) (to_server to_client channel : ℕ)
        → IsNew old to_server to_client → IsRun old calls new
        → times_attached channel new.journal.attached ≤ 1 }
    ensures handed { (old new : Holdings) (calls : List Call) (to_server to_client channel : ℕ)
        → IsNew old to_server to_client → IsRun old calls new
        → times_handed channel new.journal.handed ≡ length (words_handed channel calls) }
{}

/// What a cycle does to a hub, for any circuit between its rings and any number of channels. Where the
/// hub has a ring for each channel of the circuit, the calls of a cycle in their order (the values that
/// are taken, the words that the circuit takes and offers, the values that are handed, the end of the
/// cycle) leave the rings that the rules of a cycle say, lose no ring, and note what these rules say is
/// taken and handed. `S` is what the circuit consists of.
pub fn cycle_law<S>()
    ensures { (circuit : Circuit S) (arrivals : List (List Arrival)) (hands : List Bool) (state : S) (old new : Holdings)
        → HasRings circuit (machine_of old state) → length arrivals ≡ circuit.to_server_count
        → length hands ≡ circuit.to_client_count
        → IsRun old (calls_of_cycle circuit arrivals hands (machine_of old state)) new
        → IsCycle circuit arrivals hands state old new }
{}
