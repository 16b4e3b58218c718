//! The types of the channels of a body that are known, without a copy where a type stands in the text.
ghost use Rattle.std.specs.Prelude.{◌≡◌, Some, None, IfOk, OnOk, replicate, set, get_or, option_map};
ghost use Rattle.channel_typing.specs.Views.{source_in, origin_in, new_in};
ghost use Rattle.channel_typing.specs.Slots.{slot_type, slot_types};
ghost use Rattle.expression_types.specs.Views.{type_in};

use crate::made_element::NewType;
use crate::origin::Origin;
use crate::own_type::OwnType;
use crate::slot::Slot;
use crate::source_type::SourceType;
use channel_types::EsiType;
use esi_base::{List, NoMemory};
use expression_types::ValueType;
use std::alloc::Global;
use std::marker::Model;

/// For each element of a body, the type of the channels that it makes, where it is known. Contracts see the
/// list of these types.
#[derive(Drop)]
pub(crate) struct KnownTypes<'a> {
    slots: List<Slot<'a>>,
    made: List<EsiType>,
}

impl<'a> Model for KnownTypes<'a> {
    ghost use Rattle.std.specs.Prelude.{◌≡◌, true, List as Listed, Option, length};
    ghost use Rattle.channel_types.specs.declared.esi_type.EsiType.{EsiType};
    ghost use Rattle.channel_types.specs.contracts.esi_type.EsiType as ty;
    ghost use Rattle.std.specs.Coded.{codes};
    ghost use Rattle.channel_typing.specs.Slots.{slot_types, are_within};

    ghost Value = { Listed (Option EsiType) };

    ghost coded = { Prim.hlevel (codes, ty.the_row.coded) };

    ghost view = { λ k. slot_types k.made k.slots };

    ghost invariant = { λ k. are_within (length k.made) k.slots ≡ true };
}

impl<'a> KnownTypes<'a> {
    /// Nothing is known of so many elements.
    #[tactic(auto, using(crate::proofs::SlotLaws::none_known, crate::proofs::SlotLaws::all_within))]
    pub(crate) fn none(alloc: Global, count: usize) -> Result<KnownTypes<'a>, NoMemory>
        ensures { IfOk result (λ known. known ≡ replicate count None) }
    {
        let slots = unknown_slots(alloc, count)?;
        Ok(KnownTypes {
            slots,
            made: List::new(alloc),
        })
    }

    /// The type from an origin, where it is known.
    pub(crate) fn find<'b>(&'b self, origin: Origin<'a>) -> Option<SourceType<'b, 'a>>
        ensures { option_map source_in result ≡ origin_in self.now origin.entry }
    {
        match origin {
            Origin::Declared(ty) => Some(SourceType::Value(ValueType::Given(ty))),
            Origin::Maker(number) => {
                slot_source(self.made.as_slice(), self.slots.as_slice(), number)
            }
            Origin::Nowhere => None,
        }
    }

    /// The type of an element's channels becomes known, if there is one.
    pub(crate) fn learn(&mut self, number: usize, ty: NewType<'a>) -> Result<(), NoMemory>
        ensures { OnOk result (self.new ≡ set self.old number (new_in self.old ty.entry)) }
    {
        match ty {
            NewType::Passed(Origin::Declared(given)) => {
                self.put_value(number, ValueType::Given(given));
                Ok(())
            }
            NewType::Passed(Origin::Maker(maker)) => {
                self.share(number, maker);
                Ok(())
            }
            NewType::Computed(OwnType::Value(value)) => {
                self.put_value(number, value);
                Ok(())
            }
            NewType::Computed(OwnType::Own(own)) => self.put_own(number, own),
            NewType::Passed(Origin::Nowhere) | NewType::Unknown => {
                self.forget(number);
                Ok(())
            }
        }
    }

    /// A type that stands in the text is that of an element's channels, or a bits type is.
    #[tactic(auto, using(crate::proofs::SlotLaws::types_set, crate::proofs::SlotLaws::set_within))]
    fn put_value(&mut self, number: usize, value: ValueType<'a>)
        ensures { self.new ≡ set self.old number (Some (type_in value.entry)) }
    {
        put(&mut self.slots, number, Slot::Value(value));
    }

    /// Nothing is known of an element's channels.
    #[tactic(auto, using(crate::proofs::SlotLaws::types_set, crate::proofs::SlotLaws::set_within))]
    fn forget(&mut self, number: usize)
        ensures { self.new ≡ set self.old number None }
    {
        put(&mut self.slots, number, Slot::Unknown);
    }

    /// The type of an element's channels is that of another one's.
    #[tactic(auto, using(crate::proofs::SlotLaws::types_shared, crate::proofs::SlotLaws::shared_within))]
    fn share(&mut self, number: usize, maker: usize)
        ensures { self.new ≡ set self.old number (get_or self.old maker None) }
    {
        let slot = slot_at(self.slots.as_slice(), maker);
        put(&mut self.slots, number, slot);
    }

    /// A type of its own is that of an element's channels.
    #[tactic(auto, using(crate::proofs::SlotLaws::types_owned, crate::proofs::SlotLaws::owned_within))]
    fn put_own(&mut self, number: usize, ty: EsiType) -> Result<(), NoMemory>
        ensures { OnOk result (self.new ≡ set self.old number (Some ty)) }
    {
        let made = self.made.len();
        self.made.add(ty)?;
        put(&mut self.slots, number, Slot::Made(made));
        Ok(())
    }
}

/// So many slots of which nothing is known.
fn unknown_slots<'a>(alloc: Global, count: usize) -> Result<List<Slot<'a>>, NoMemory>
    ensures { IfOk result (λ slots. slots ≡ replicate count Slot.Unknown) }
{
    let mut slots = List::new(alloc);
    for _index in 0..count {
        slots.add(Slot::Unknown)?;
    }
    Ok(slots)
}

/// The slot of a number.
fn slot_at<'a>(slots: &[Slot<'a>], number: usize) -> Slot<'a>
    ensures { result ≡ get_or slots.now number Slot.Unknown }
{
    match slots.get(number) {
        Some(slot) => *slot,
        None => Slot::Unknown,
    }
}

/// Puts a slot in the place of another, if there is one.
fn put<'a>(slots: &mut List<Slot<'a>>, number: usize, slot: Slot<'a>)
    ensures { slots.new ≡ set slots.old number slot.entry }
{
    if number < slots.len() {
        slots.set(number, slot);
    }
}

/// What the slot of a number has.
#[tactic(auto, using(crate::proofs::SlotLaws::type_at_slot))]
fn slot_source<'b, 'a>(
    made: &'b [EsiType],
    slots: &[Slot<'a>],
    number: usize,
) -> Option<SourceType<'b, 'a>>
    ensures { option_map source_in result ≡ get_or (slot_types made.now slots.now) number None }
{
    has_slot(made, slot_at(slots, number))
}

/// What a slot has.
fn has_slot<'b, 'a>(made: &'b [EsiType], slot: Slot<'a>) -> Option<SourceType<'b, 'a>>
    ensures { option_map source_in result ≡ slot_type made.now slot.entry }
{
    match slot {
        Slot::Unknown => None,
        Slot::Value(value) => Some(SourceType::Value(value)),
        Slot::Made(number) => match made.get(number) {
            Some(ty) => Some(SourceType::Made(ty)),
            None => None,
        },
    }
}
