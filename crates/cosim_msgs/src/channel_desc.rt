//! The description of one channel.
ghost use Rattle.std.specs.Prelude.{◌≡◌, ◌≤◌, ◌++◌, length, take, OnOk, IfSome};
ghost use Rattle.cosim_msgs.specs.declared.channel_desc.TheConstants.{DIR};
ghost use Rattle.cosim_msgs.specs.Values.{varint_as as varint_given};
ghost use Rattle.cosim_msgs.specs.Steps.{dir_or as dir_before};

use crate::cosim_message::{CosimMessage, MsgStop};
use crate::values::{next_field, text_or, varint_as};
use crate::writing::{number_len, octets_len, settle, write_number, write_octets};
use esi_base::{List, NoMemory, Octets};
use proto_wire::{WireField, WireRefusal};
use std::alloc::Global;

/// One channel as the server lists it.
#[derive(Debug, Drop)]
pub struct ChannelDesc {
    /// Field 1: its name, in UTF-8.
    pub name: Octets,
    /// Field 2: its direction, 0 towards the server and 1 towards the client. Another number may be
    /// read, and is not written.
    pub dir: u32,
    /// Field 3: the text of its type, in UTF-8.
    pub ty: Octets,
}

/// A description whose name and type stand in octets that were given.
#[derive(Clone, Copy, Debug, PartialEq, Eq)]
pub(crate) struct BorrowedDesc<'a> {
    pub(crate) name: &'a [u8],
    pub(crate) dir: u32,
    pub(crate) ty: &'a [u8],
}

/// The numbers of the fields.
const NAME: u32 = 1;

const DIR: u32 = 2;

const TYPE: u32 = 3;

const _: () = prove!(NAME == 1 && DIR == 2 && TYPE == 3);

impl<'a> BorrowedDesc<'a> {
    ghost use Rattle.std.specs.Result.{result_map_both};
    ghost use Rattle.cosim_msgs.specs.Values.{IsWithin, span};
    ghost use Rattle.cosim_msgs.specs.Messages.{empty_desc};
    ghost use Rattle.cosim_msgs.specs.Reading.{run};
    ghost use Rattle.cosim_msgs.specs.Steps.{desc_step, dir_or as dir_before};
    ghost use Rattle.cosim_msgs.specs.Views.{desc_view};

    /// What a field makes of it.
    #[tactic(auto, unfolding(crate::specs::Steps::desc_step))]
    fn with_field(
        self,
        octets: &'a [u8],
        at: usize,
        field: &WireField,
    ) -> Result<BorrowedDesc<'a>, WireRefusal>
        requires { IsWithin (length octets.now) (span field.now.value) }
        ensures { desc_step octets.now (desc_view self.entry) (record { at = at; field = field.now }) ≡ result_map_both desc_view (λ refusal. refusal) result }
    {
        let name = text_or(self.name, octets, at, field, NAME)?;
        let ty = text_or(self.ty, octets, at, field, TYPE)?;
        let dir = dir_or(self.dir, field);
        Ok(BorrowedDesc { name, dir, ty })
    }

    /// The description that octets from an offset on are.
    fn read(octets: &'a [u8], from: usize) -> Result<BorrowedDesc<'a>, WireRefusal>
        requires { from ≤ length octets.now }
        ensures { run (desc_step octets.now) empty_desc octets.now from ≡ result_map_both desc_view (λ refusal. refusal) result }
    {
        let mut desc = BorrowedDesc {
            name: &[],
            dir: 0,
            ty: &[],
        };
        let mut at = from;
        while let Some(field) = next_field(octets, at)? {
            desc = desc.with_field(octets, at, &field)?;
            at = field.after;
        }
        Ok(desc)
    }
}

/// The direction that a field gives, or the one from before.
fn dir_or(before: u32, field: &WireField) -> u32
    ensures { result ≡ dir_before before (varint_given DIR field.now) }
{
    match varint_as(field, DIR) {
        Some(value) => (value % (1 << 32)) as u32,
        None => before,
    }
}

impl ChannelDesc {
    ghost use Rattle.esi_base.specs.Answers.{Reads};
    ghost use Rattle.cosim_msgs.specs.Messages.{empty_desc};
    ghost use Rattle.cosim_msgs.specs.Reading.{run};
    ghost use Rattle.cosim_msgs.specs.Steps.{desc_step};
    ghost use Rattle.cosim_msgs.specs.Spelling.{desc_spelling};

    /// The description that octets from an offset on are.
    pub(crate) fn of_octets(
        alloc: Global,
        octets: &[u8],
        from: usize,
    ) -> Result<ChannelDesc, MsgStop>
        requires { from ≤ length octets.now }
        ensures { Reads (run (desc_step octets.now) empty_desc octets.now from) result }
    {
        let desc = BorrowedDesc::read(octets, from).map_err(MsgStop::Refused)?;
        Ok(ChannelDesc {
            name: List::from_slice(alloc, desc.name)?,
            dir: desc.dir,
            ty: List::from_slice(alloc, desc.ty)?,
        })
    }

    /// Adds the description's octets, or a front of them when it runs out of memory.
    pub(crate) fn push(&self, out: &mut Octets) -> Result<(), NoMemory>
        ensures written { OnOk result (out.new ≡ out.old ++ desc_spelling self.now) }
        ensures front { take (length out.old) out.new ≡ out.old }
    {
        write_octets(out, NAME, self.name.as_slice())?;
        write_number(out, DIR, self.dir)?;
        write_octets(out, TYPE, self.ty.as_slice())
    }

    /// How many octets these are; None where there is no such count.
    pub(crate) fn encoded_len(&self) -> Option<usize>
        ensures { IfSome result (λ len. len ≡ length (desc_spelling self.now)) }
    {
        let name = octets_len(NAME, self.name.as_slice())?;
        let ty = octets_len(TYPE, self.ty.as_slice())?;
        name.checked_add(number_len(DIR, self.dir))?.checked_add(ty)
    }
}

impl CosimMessage for ChannelDesc {
    ghost use Rattle.cosim_msgs.specs.Messages.{empty_desc, IsChannelDesc, RefusesDesc};
    ghost use Rattle.cosim_msgs.specs.Reading.{run};
    ghost use Rattle.cosim_msgs.specs.Spelling.{desc_spelling, IsWritableDesc, HasTexts};
    ghost use Rattle.cosim_msgs.specs.Steps.{desc_step};

    ghost meaning = { λ octets. run (desc_step octets) empty_desc octets 0 };

    ghost is_message = { λ octets desc. IsChannelDesc octets 0 desc };

    ghost is_refused = { λ octets refusal. RefusesDesc octets 0 refusal };

    ghost spelling = { desc_spelling };

    ghost is_writable = { IsWritableDesc };

    ghost has_texts = { HasTexts };

    fn decode(alloc: Global, octets: &[u8]) -> Result<ChannelDesc, MsgStop> {
        ChannelDesc::of_octets(alloc, octets, 0)
    }

    fn encode(&self, out: &mut Octets) -> Result<(), NoMemory> {
        let len = out.len();
        let written = self.push(out);
        settle(out, len, written)
    }
}
