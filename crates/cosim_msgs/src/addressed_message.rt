//! A message with the channel that it is for.
ghost use Rattle.std.specs.Prelude.{◌≡◌, ◌++◌, length, take, OnOk};
ghost use Rattle.std.specs.Result.{result_map_both};
ghost use Rattle.cosim_msgs.specs.Views.{message_view, message_of};
ghost use Rattle.cosim_msgs.specs.declared.addressed_message.TheConstants.{MESSAGE};
ghost use Rattle.cosim_msgs.specs.Steps.{message_with};
ghost use Rattle.cosim_msgs.specs.Values.{IsWithin, span, span_as as span_given};

use crate::cosim_message::{CosimMessage, MsgStop};
use crate::data_message::{DATA, Message};
use crate::values::{next_field, span_as, text_or};
use crate::writing::{octets_len, settle, write_head, write_octets};
use esi_base::{List, NoMemory, Octets};
use proto_wire::{WireField, WireRefusal};
use std::alloc::Global;

/// A message for a channel, as SendToServer is asked with.
#[derive(Debug, Drop)]
pub struct AddressedMessage {
    /// Field 1: the channel's name, in UTF-8.
    pub channel_name: Octets,
    /// Field 2: what is sent.
    pub message: Message,
}

/// The same, whose name and message stand in octets that were given.
#[derive(Clone, Copy, Debug, PartialEq, Eq)]
struct BorrowedAddressed<'a> {
    channel_name: &'a [u8],
    message: &'a [u8],
}

/// The numbers of the fields.
const CHANNEL_NAME: u32 = 1;

const MESSAGE: u32 = 2;

const _: () = prove!(CHANNEL_NAME == 1 && MESSAGE == 2);

impl<'a> BorrowedAddressed<'a> {
    ghost use Rattle.std.specs.Result.{result_map_both};
    ghost use Rattle.cosim_msgs.specs.Messages.{empty_addressed};
    ghost use Rattle.cosim_msgs.specs.Reading.{run};
    ghost use Rattle.cosim_msgs.specs.Steps.{addressed_step};
    ghost use Rattle.cosim_msgs.specs.Views.{addressed_view};

    /// What a field makes of it.
    #[tactic(auto, unfolding(crate::specs::Steps::addressed_step))]
    fn with_field(
        self,
        octets: &'a [u8],
        at: usize,
        field: &WireField,
    ) -> Result<BorrowedAddressed<'a>, WireRefusal>
        requires { IsWithin (length octets.now) (span field.now.value) }
        ensures { addressed_step octets.now (addressed_view self.entry) (record { at = at; field = field.now }) ≡ result_map_both addressed_view (λ refusal. refusal) result }
    {
        let channel_name = text_or(self.channel_name, octets, at, field, CHANNEL_NAME)?;
        let message = message_or(self.message, octets, field)?;
        Ok(BorrowedAddressed {
            channel_name,
            message,
        })
    }

    /// The message that the octets are.
    fn read(octets: &'a [u8]) -> Result<BorrowedAddressed<'a>, WireRefusal>
        ensures { run (addressed_step octets.now) empty_addressed octets.now 0 ≡ result_map_both addressed_view (λ refusal. refusal) result }
    {
        let mut addressed = BorrowedAddressed {
            channel_name: &[],
            message: &[],
        };
        let mut at = 0;
        while let Some(field) = next_field(octets, at)? {
            addressed = addressed.with_field(octets, at, &field)?;
            at = field.after;
        }
        Ok(addressed)
    }
}

/// The octets of the message that goes on in an embedded one, or as it was before.
fn message_or<'a>(
    before: &'a [u8],
    octets: &'a [u8],
    field: &WireField,
) -> Result<&'a [u8], WireRefusal>
    requires { IsWithin (length octets.now) (span field.now.value) }
    ensures { message_with octets.now (message_of before.now) (span_given MESSAGE field.now) ≡ result_map_both message_view (λ refusal. refusal) result }
{
    match span_as(field, MESSAGE) {
        Some(range) => Message::read(before, &octets[..range.to], range.from),
        None => Ok(before),
    }
}

impl AddressedMessage {
    ghost use Rattle.esi_base.specs.Answers.{Reads};
    ghost use Rattle.cosim_msgs.specs.Messages.{empty_addressed};
    ghost use Rattle.cosim_msgs.specs.Reading.{run};
    ghost use Rattle.cosim_msgs.specs.Steps.{addressed_step};
    ghost use Rattle.cosim_msgs.specs.Spelling.{addressed_spelling};

    /// The message that the octets are.
    fn of_octets(alloc: Global, octets: &[u8]) -> Result<AddressedMessage, MsgStop>
        ensures { Reads (run (addressed_step octets.now) empty_addressed octets.now 0) result }
    {
        let addressed = BorrowedAddressed::read(octets).map_err(MsgStop::Refused)?;
        Ok(AddressedMessage {
            channel_name: List::from_slice(alloc, addressed.channel_name)?,
            message: Message {
                octets: List::from_slice(alloc, addressed.message)?,
            },
        })
    }

    /// Adds the message's octets, or a prefix of them when it runs out of memory.
    fn push(&self, out: &mut Octets) -> Result<(), NoMemory>
        ensures written { OnOk result (out.new ≡ out.old ++ addressed_spelling self.now) }
        ensures front { take (length out.old) out.new ≡ out.old }
    {
        let len = octets_len(DATA, self.message.octets.as_slice()).ok_or(NoMemory)?;
        write_octets(out, CHANNEL_NAME, self.channel_name.as_slice())?;
        write_head(out, MESSAGE, len)?;
        self.message.encode(out)
    }
}

impl CosimMessage for AddressedMessage {
    ghost use Rattle.cosim_msgs.specs.Messages.{empty_addressed, IsAddressedMessage, RefusesAddressed};
    ghost use Rattle.cosim_msgs.specs.Reading.{run};
    ghost use Rattle.cosim_msgs.specs.Spelling.{addressed_spelling, HasTextsAddressed};
    ghost use Rattle.cosim_msgs.specs.Steps.{addressed_step};

    ghost meaning = { λ octets. run (addressed_step octets) empty_addressed octets 0 };

    ghost is_message = { λ octets addressed. IsAddressedMessage octets 0 addressed };

    ghost is_refused = { λ octets refusal. RefusesAddressed octets 0 refusal };

    ghost spelling = { addressed_spelling };

    ghost is_writable = { λ _. Unit {0} };

    ghost has_texts = { HasTextsAddressed };

    fn decode(alloc: Global, octets: &[u8]) -> Result<AddressedMessage, MsgStop> {
        AddressedMessage::of_octets(alloc, octets)
    }

    fn encode(&self, out: &mut Octets) -> Result<(), NoMemory> {
        let len = out.len();
        let written = self.push(out);
        settle(out, len, written)
    }
}
