//! The message that a channel carries.
ghost use Rattle.std.specs.Prelude.{◌≡◌, ◌≤◌, length};

use crate::cosim_message::{CosimMessage, MsgStop};
use crate::values::{next_field, octets_or};
use crate::writing::write_octets;
use esi_base::{List, NoMemory, Octets};
use proto_wire::WireRefusal;
use std::alloc::Global;

/// The octets of one value of a channel.
#[derive(Debug, Drop)]
pub struct Message {
    /// Field 1, `data`.
    pub octets: Octets,
}

/// The number of the field.
pub(crate) const DATA: u32 = 1;

const _: () = prove!(DATA == 1);

impl Message {
    ghost use Rattle.std.specs.Result.{result_map_both};
    ghost use Rattle.esi_base.specs.Answers.{Reads};
    ghost use Rattle.cosim_msgs.specs.Messages.{empty_message};
    ghost use Rattle.cosim_msgs.specs.Reading.{run};
    ghost use Rattle.cosim_msgs.specs.Steps.{message_step};
    ghost use Rattle.cosim_msgs.specs.Views.{message_view, message_of};

    /// The octets that the message at an offset has, where it goes on from those that were read before.
    pub(crate) fn read<'a>(
        before: &'a [u8],
        octets: &'a [u8],
        from: usize,
    ) -> Result<&'a [u8], WireRefusal>
        requires { from ≤ length octets.now }
        ensures { run (message_step octets.now) (message_of before.now) octets.now from ≡ result_map_both message_view (λ refusal. refusal) result }
    {
        let mut data = before;
        let mut at = from;
        while let Some(field) = next_field(octets, at)? {
            data = octets_or(data, octets, &field, DATA);
            at = field.after;
        }
        Ok(data)
    }

    /// The message that the octets are.
    fn of_octets(alloc: Global, octets: &[u8]) -> Result<Message, MsgStop>
        ensures { Reads (run (message_step octets.now) empty_message octets.now 0) result }
    {
        let data = Message::read(&[], octets, 0).map_err(MsgStop::Refused)?;
        Ok(Message {
            octets: List::from_slice(alloc, data)?,
        })
    }
}

impl CosimMessage for Message {
    ghost use Rattle.cosim_msgs.specs.Messages.{empty_message, IsDataMessage, RefusesMessage};
    ghost use Rattle.cosim_msgs.specs.Reading.{run};
    ghost use Rattle.cosim_msgs.specs.Spelling.{message_spelling};
    ghost use Rattle.cosim_msgs.specs.Steps.{message_step};

    ghost meaning = { λ octets. run (message_step octets) empty_message octets 0 };

    ghost is_message = { λ octets message. IsDataMessage octets 0 message };

    ghost is_refused = { λ octets refusal. RefusesMessage octets 0 refusal };

    ghost spelling = { message_spelling };

    ghost is_writable = { λ _. Unit {0} };

    ghost has_texts = { λ _. Unit {0} };

    fn decode(alloc: Global, octets: &[u8]) -> Result<Message, MsgStop> {
        Message::of_octets(alloc, octets)
    }

    fn encode(&self, out: &mut Octets) -> Result<(), NoMemory> {
        write_octets(out, DATA, self.octets.as_slice())
    }
}
