//! What every message can do: be read from octets, and be written.
ghost use Rattle.std.specs.Prelude.{◌≡◌, ℕ, ◌++◌, Result as Outcome, Ok, Err, IfOk, OnOk, OnErr, List as Listed};
ghost use Rattle.proto_wire.specs.declared.field.WireRefusal.{WireRefusal as Refusal};

use esi_base::{NoMemory, Octets, Stop};
use proto_wire::WireRefusal;
use std::alloc::Global;

/// Why a message was not read: the rule of fields or of texts that its octets break, at the offset of the
/// first octet of the field's key in the octets of the call; or out of memory.
pub type MsgStop = Stop<WireRefusal>;

/// A message of the calls (docs/messages.md).
pub trait CosimMessage: Sized {
    ghost use Rattle.esi_base.specs.Answers.{Reads, IfRefused};

    // what octets mean, by their fields from the first to the last: a message, or the first refusal
    ghost meaning: { Listed ℕ → Outcome Self Refusal };

    // the octets are a message's
    ghost is_message: { Listed ℕ → Self → Type 0 };

    // the octets are refused
    ghost is_refused: { Listed ℕ → Refusal → Type 0 };

    // the octets that a message is written as
    ghost spelling: { Self → Listed ℕ };

    // a message that may be written
    ghost is_writable: { Self → Type 0 };

    // a message whose names and types are UTF-8
    ghost has_texts: { Self → Type 0 };

    /// Reads the message that the octets are, all of them. Fields that the message does not know are
    /// skipped.
    fn decode(alloc: Global, octets: &[u8]) -> Result<Self, MsgStop>
        // What is read is what the octets say, and what they say is read, unless memory runs out.
        ensures found { IfOk result (λ message. is_message octets.now message) }
        ensures only { (message : Self) → is_message octets.now message → Reads (Ok message) result }

        // They are refused exactly where a rule is broken, at that field's offset.
        ensures refused { IfRefused result (λ refusal. is_refused octets.now refusal) }
        ensures refused_only { (refusal : Refusal) → is_refused octets.now refusal → Reads (Err refusal) result }

        // The answer is that of the fields in order.
        ensures exact { Reads (meaning octets.now) result };

    /// Adds the message's octets: its fields in order of number, without scalars of their default. It
    /// fails only when it runs out of memory, and then leaves the octets as they were.
    fn encode(&self, out: &mut Octets) -> Result<(), NoMemory>
        requires { is_writable self.now }
        ensures written { OnOk result (out.new ≡ out.old ++ spelling self.now) }
        ensures unchanged { OnErr result (out.new ≡ out.old) }

        // Where its names and types are UTF-8, what is written is that message when it is read.
        ensures read_again { OnOk result (has_texts self.now → is_message (spelling self.now) self.now) };
}
