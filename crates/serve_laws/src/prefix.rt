//! What is written on the streams that are attached to channels.
ghost use Rattle.std.specs.Prelude.{◌≡◌, ◌<◌, ℕ, Bool, Some, List};
ghost use Rattle.cycle_rules.specs.Circuit.{Bits};
ghost use Rattle.h2_history.specs.Puts.{Put};
ghost use Rattle.serve_acts.specs.Acts.{Act};
ghost use Rattle.serve_acts.specs.Attachments.{Attachment, attachment, handed_on, handed_to};
ghost use Rattle.serve_acts.specs.Histories.{history, sent_to};
ghost use Rattle.serve_acts.specs.Legal.{IsLegal};
ghost use Rattle.serve_acts.specs.Prefixes.{Begins, IsSegment};
ghost use Rattle.serve_acts.specs.Served.{Served};
ghost use Rattle.serve_laws.specs.Flow.{KeepsFlow, OffersWords};
ghost use Rattle.serve_laws.specs.Rings.{words_taken};
ghost use Rattle.serve_laws.specs.Wire.{content};
ghost use Rattle.serve_laws.specs.Written.{ReadsFrames, ReadsValues};

/// The words that a channel handed are a prefix of the design's stream function of the words taken; and
/// those that were handed to a stream stand among them from the first that was not handed before it was
/// attached.
pub fn stream_function_law<S>()
    ensures handed { (served : Served S) (flow : (ℕ → List Bits) → ℕ → List Bits)
        → KeepsFlow served.circuit served.start flow → (channel : ℕ) (t : List Act)
        → channel < served.circuit.to_client_count → IsLegal served t
        → Begins (handed_on channel t) (flow (λ i. words_taken i t) channel) }
    ensures segment { (served : Served S) (conn stream : ℕ) (t : List Act) (there : Attachment)
        → IsLegal served t → attachment conn stream t ≡ Some there
        → IsSegment (handed_on there.channel t) (handed_to conn stream t) there.first }
{}

/// Prefix. The values in the whole messages of the whole frames that were sent to an attached stream are a
/// prefix of the values that were handed to it; and they stand in the design's stream function of the values
/// taken, from the first that was not handed before it was attached. The facts of frames, messages and
/// lowering are premises.
pub fn prefix_law<S>()
    ensures written { (served : Served S) (read : List ℕ → List Put) (IsWord : ℕ → Bits → Bool) (values : ℕ → List ℕ → List Bits)
        → ReadsValues IsWord served.replies.message values → OffersWords served.circuit IsWord
        → (conn stream : ℕ) (t : List Act) (there : Attachment) → IsLegal served t
        → ReadsFrames read (history served.replies conn t) → attachment conn stream t ≡ Some there
        → Begins (values there.channel (content stream (read (sent_to conn t)))) (handed_to conn stream t) }
    ensures prefix { (served : Served S) (flow : (ℕ → List Bits) → ℕ → List Bits)
        → KeepsFlow served.circuit served.start flow → (read : List ℕ → List Put) (IsWord : ℕ → Bits → Bool)
        (values : ℕ → List ℕ → List Bits) → ReadsValues IsWord served.replies.message values
        → OffersWords served.circuit IsWord → (conn stream : ℕ) (t : List Act) (there : Attachment)
        → IsLegal served t → ReadsFrames read (history served.replies conn t)
        → attachment conn stream t ≡ Some there
        → IsSegment (flow (λ i. words_taken i t) there.channel)
        (values there.channel (content stream (read (sent_to conn t)))) there.first }
{}
