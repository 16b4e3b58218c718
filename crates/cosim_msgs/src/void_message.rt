//! The message without fields.
ghost use Rattle.std.specs.Prelude.{◌≡◌};

use crate::cosim_message::{CosimMessage, MsgStop};
use crate::values::next_field;
use esi_base::{NoMemory, Octets};
use proto_wire::WireRefusal;
use std::alloc::Global;

/// The message without fields: what ListChannels is asked with, and what SendToServer answers.
#[derive(Clone, Copy, Debug, PartialEq, Eq)]
pub struct VoidMessage;

impl VoidMessage {
    ghost use Rattle.std.specs.Result.{result_map_both};
    ghost use Rattle.esi_base.specs.Answers.{Reads};
    ghost use Rattle.cosim_msgs.specs.Messages.{void_message};
    ghost use Rattle.cosim_msgs.specs.Reading.{run};
    ghost use Rattle.cosim_msgs.specs.Steps.{void_step};

    /// Reads fields, none of which it knows.
    fn read(octets: &[u8]) -> Result<VoidMessage, WireRefusal>
        ensures { run void_step void_message octets.now 0 ≡ result_map_both (λ message. message) (λ refusal. refusal) result }
    {
        let mut at = 0;
        while let Some(field) = next_field(octets, at)? {
            at = field.after;
        }
        Ok(VoidMessage)
    }

    /// The message that the octets are.
    fn of_octets(octets: &[u8]) -> Result<VoidMessage, MsgStop>
        ensures { Reads (run void_step void_message octets.now 0) result }
    {
        VoidMessage::read(octets).map_err(MsgStop::Refused)
    }
}

impl CosimMessage for VoidMessage {
    ghost use Rattle.cosim_msgs.specs.Messages.{void_message, VoidSays, NoFault};
    ghost use Rattle.cosim_msgs.specs.Reading.{Encodes, Refuses, run};
    ghost use Rattle.cosim_msgs.specs.Spelling.{void_spelling};
    ghost use Rattle.cosim_msgs.specs.Steps.{void_step};

    ghost meaning = { λ octets. run void_step void_message octets 0 };

    ghost is_message = { λ octets message. Encodes VoidSays void_message octets 0 message };

    ghost is_refused = { λ octets refusal. Refuses VoidSays NoFault void_message octets 0 refusal };

    ghost spelling = { void_spelling };

    ghost is_writable = { λ _. Unit {0} };

    ghost has_texts = { λ _. Unit {0} };

    fn decode(_alloc: Global, octets: &[u8]) -> Result<VoidMessage, MsgStop> {
        VoidMessage::of_octets(octets)
    }

    fn encode(&self, _out: &mut Octets) -> Result<(), NoMemory> {
        Ok(())
    }
}
