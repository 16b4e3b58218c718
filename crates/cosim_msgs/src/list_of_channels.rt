//! The list of all channels.
ghost use Rattle.std.specs.Prelude.{◌≡◌, ◌++◌, length, take, OnOk};
ghost use Rattle.esi_base.specs.Answers.{AnswersAs};
ghost use Rattle.cosim_msgs.specs.declared.list_of_channels.TheConstants.{CHANNELS};
ghost use Rattle.cosim_msgs.specs.Spelling.{channel_field};
ghost use Rattle.cosim_msgs.specs.Steps.{channels_with};
ghost use Rattle.cosim_msgs.specs.Values.{IsWithin, span, span_as as span_given};

use crate::channel_desc::ChannelDesc;
use crate::cosim_message::{CosimMessage, MsgStop};
use crate::values::{next_field_or_stop, span_as};
use crate::writing::{settle, write_head};
use esi_base::{List, NoMemory, Octets};
use proto_wire::WireField;
use std::alloc::Global;

/// All channels of a server, as ListChannels answers.
#[derive(Debug, Drop)]
pub struct ListOfChannels {
    /// Field 1, repeated.
    pub channels: List<ChannelDesc>,
}

/// The number of the field.
const CHANNELS: u32 = 1;

const _: () = prove!(CHANNELS == 1);

impl ListOfChannels {
    ghost use Rattle.esi_base.specs.Answers.{Reads};
    ghost use Rattle.cosim_msgs.specs.Messages.{empty_list};
    ghost use Rattle.cosim_msgs.specs.Reading.{run};
    ghost use Rattle.cosim_msgs.specs.Steps.{list_step};
    ghost use Rattle.cosim_msgs.specs.Spelling.{list_spelling};

    /// The list that the octets are.
    fn of_octets(alloc: Global, octets: &[u8]) -> Result<ListOfChannels, MsgStop>
        ensures { Reads (run (list_step octets.now) empty_list octets.now 0) result }
    {
        let mut channels = List::new(alloc);
        let mut at = 0;
        while let Some(field) = next_field_or_stop(octets, at)? {
            push_channel(alloc, &mut channels, octets, &field)?;
            at = field.after;
        }
        Ok(ListOfChannels { channels })
    }

    /// Adds the list's octets, or a front of them when it runs out of memory.
    fn push(&self, out: &mut Octets) -> Result<(), NoMemory>
        ensures written { OnOk result (out.new ≡ out.old ++ list_spelling self.now) }
        ensures front { take (length out.old) out.new ≡ out.old }
    {
        for desc in self.channels.as_slice() {
            write_channel(out, desc)?;
        }
        Ok(())
    }
}

/// Adds the channel that a field describes, if it is one of the list's.
fn push_channel(
    alloc: Global,
    channels: &mut List<ChannelDesc>,
    octets: &[u8],
    field: &WireField,
) -> Result<(), MsgStop>
    requires { IsWithin (length octets.now) (span field.now.value) }
    ensures { AnswersAs (λ _. channels.new) (channels_with octets.now channels.old (span_given CHANNELS field.now)) result }
{
    if let Some(range) = span_as(field, CHANNELS) {
        let desc = ChannelDesc::of_octets(alloc, &octets[..range.to], range.from)?;
        channels.add(desc)?;
    }
    Ok(())
}

/// Adds a channel's field: its key, the count of the description's octets, and these; or a front of
/// that when it runs out of memory.
fn write_channel(out: &mut Octets, desc: &ChannelDesc) -> Result<(), NoMemory>
    ensures written { OnOk result (out.new ≡ out.old ++ channel_field desc.now) }
    ensures front { take (length out.old) out.new ≡ out.old }
{
    let len = desc.encoded_len().ok_or(NoMemory)?;
    write_head(out, CHANNELS, len)?;
    desc.push(out)
}

impl CosimMessage for ListOfChannels {
    ghost use Rattle.cosim_msgs.specs.Messages.{empty_list, IsListOfChannels, RefusesList};
    ghost use Rattle.cosim_msgs.specs.Reading.{run};
    ghost use Rattle.cosim_msgs.specs.Spelling.{list_spelling, IsWritableList, HasTextsList};
    ghost use Rattle.cosim_msgs.specs.Steps.{list_step};

    ghost meaning = { λ octets. run (list_step octets) empty_list octets 0 };

    ghost is_message = { λ octets list. IsListOfChannels octets 0 list };

    ghost is_refused = { λ octets refusal. RefusesList octets 0 refusal };

    ghost spelling = { list_spelling };

    ghost is_writable = { IsWritableList };

    ghost has_texts = { HasTextsList };

    fn decode(alloc: Global, octets: &[u8]) -> Result<ListOfChannels, MsgStop> {
        ListOfChannels::of_octets(alloc, octets)
    }

    fn encode(&self, out: &mut Octets) -> Result<(), NoMemory> {
        let len = out.len();
        let written = self.push(out);
        settle(out, len, written)
    }
}
