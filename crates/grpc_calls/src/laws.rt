//! Laws of streams of messages, and of lists of calls of a deframer.
ghost use Rattle.std.specs.Prelude.{◌≡◌, ◌≢◌, ◌≤◌, ℕ, List, [], ◌++◌, length};
ghost use Rattle.std.specs.List.{flat_map, AllByRecursion};
ghost use Rattle.grpc_calls.specs.Messages.{prefixed_of};
ghost use Rattle.grpc_calls.specs.Streams.{End, AreMessages, Ends, IsStream, HasStream};
ghost use Rattle.grpc_calls.specs.Streams.End.{Unfinished};
ghost use Rattle.grpc_calls.specs.Calls.{Deframing, Call, IsRun, octets_fed, messages_given, StaysRefused};

/// Octets have exactly one reading as a stream: its messages, and how it goes on after them.
#[tactic(auto, using(crate::specs::StreamLaws::each_has_stream, crate::specs::StreamLaws::same_stream))]
pub fn one_stream_law()
    ensures some { (limit : ℕ) (octets : List ℕ) → HasStream limit octets }
    ensures once { (limit : ℕ) (octets : List ℕ) (messages others : List (List ℕ))
        (rest left : List ℕ) (end last : End)
        → IsStream limit octets messages rest end → IsStream limit octets others left last
        → (messages ≡ others) × (rest ≡ left) × (end ≡ last) }
{}

/// Over any list of calls, the octets that were unread before and those fed since are, in this order,
/// the messages that were given and what is unread after. Where Pending or a refusal is due then,
/// these are all the messages of the joined octets.
#[tactic(auto, using(crate::specs::CallLaws::messages_of_calls, crate::specs::CallLaws::stream_of_run))]
pub fn deframer_law()
    ensures messages { (old new : Deframing) (calls : List Call) → IsRun old calls new
        → AreMessages old.limit (old.unread ++ octets_fed calls) (messages_given calls) new.unread }
    ensures stream { (old new : Deframing) (calls : List Call) (end : End) → IsRun old calls new
        → Ends new.limit new.unread end
        → IsStream old.limit (old.unread ++ octets_fed calls) (messages_given calls) new.unread end }
{}

/// The messages do not depend on the pieces in which the octets were fed, nor on when the deframer was
/// asked for a message: after any two lists of calls of a new deframer that fed the same octets, joined,
/// and after which Pending or a refusal is due, the same messages were given, and the same is due.
#[tactic(auto, using(crate::specs::CallLaws::any_cutting))]
pub fn any_cutting_law()
    ensures { (limit : ℕ) (calls others : List Call) (new found : Deframing) (end last : End)
        → IsRun (record { limit = limit; unread = [] }) calls new → Ends new.limit new.unread end
        → IsRun (record { limit = limit; unread = [] }) others found
        → Ends found.limit found.unread last
        → octets_fed calls ≡ octets_fed others
        → (messages_given calls ≡ messages_given others) × (end ≡ last) }
{}

/// After a refusal no message is given, whatever is fed, and each answer is the same refusal.
#[tactic(auto, using(crate::specs::CallLaws::stays_refused))]
pub fn refusal_law()
    ensures { (old new : Deframing) (calls : List Call) (end : End)
        → Ends old.limit old.unread end → end ≢ Unfinished → IsRun old calls new
        → StaysRefused calls new end }
{}

/// Messages within the limit are read as `prefixed` wrote them, one after another, with nothing left.
#[tactic(auto, using(crate::specs::StreamLaws::prefixed_stream))]
pub fn prefixed_law()
    ensures { (limit : ℕ) (messages : List (List ℕ))
        → AllByRecursion (λ message. length message ≤ limit) messages
        → IsStream limit (flat_map prefixed_of messages) messages [] Unfinished }
{}
