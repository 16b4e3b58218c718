//! The type of a channel that an element takes.
ghost use Rattle.std.specs.Prelude.{◌≡◌, min, IfOk};
ghost use Rattle.channel_types.specs.Types.{nesting_of};
ghost use Rattle.channel_types.specs.SameTypes.{same_types};
ghost use Rattle.channel_typing.specs.declared.limits.TheConstants.{TOO_DEEP};
ghost use Rattle.channel_typing.specs.Typing.{width_in};
ghost use Rattle.channel_typing.specs.Views.{source_in};

use crate::nesting::capped_nesting;
use channel_types::{EsiType, are_same, capped_width, copied};
use esi_base::NoMemory;
use expression_types::ValueType;
use std::alloc::Global;

/// The type of a channel that an element takes: one that stands in the text, a bits type, or one that was
/// made for a channel of the body.
#[derive(Clone, Copy, Debug)]
pub enum SourceType<'b, 'a> {
    /// One that stands in the text, or a bits type.
    Value(ValueType<'a>),
    /// One that was made.
    Made(&'b EsiType),
}

impl<'b, 'a> SourceType<'b, 'a> {
    /// Whether it is this type.
    pub(crate) fn is(&self, other: &EsiType) -> bool
        ensures { result ≡ same_types (source_in self.now) other.now }
    {
        match self {
            SourceType::Value(ty) => ty.is(other),
            SourceType::Made(ty) => are_same(ty, other),
        }
    }

    /// Whether the two are one type.
    pub(crate) fn is_same(&self, other: &SourceType<'b, 'a>) -> bool
        ensures { result ≡ same_types (source_in self.now) (source_in other.now) }
    {
        match other {
            SourceType::Value(ValueType::Given(ty)) => self.is(ty),
            SourceType::Value(ValueType::Number(number)) => self.is(&number.ty()),
            SourceType::Made(ty) => self.is(ty),
        }
    }

    /// Its width in bits, where `TOO_WIDE` stands for all above the greatest one.
    pub(crate) fn width(&self) -> u32
        ensures { result ≡ width_in (source_in self.now) }
    {
        match self {
            SourceType::Value(ValueType::Given(ty)) => capped_width(ty),
            SourceType::Value(ValueType::Number(number)) => capped_width(&number.ty()),
            SourceType::Made(ty) => capped_width(ty),
        }
    }

    /// How many types stand inside one another, where `TOO_DEEP` stands for all above the most.
    pub(crate) fn nesting(&self) -> u32
        ensures { result ≡ min TOO_DEEP (nesting_of (source_in self.now)) }
    {
        match self {
            SourceType::Value(ValueType::Given(ty)) => capped_nesting(ty),
            SourceType::Value(ValueType::Number(number)) => capped_nesting(&number.ty()),
            SourceType::Made(ty) => capped_nesting(ty),
        }
    }

    /// A copy.
    pub(crate) fn copy(&self, alloc: Global) -> Result<EsiType, NoMemory>
        ensures { IfOk result (λ copy. copy ≡ source_in self.now) }
    {
        match self {
            SourceType::Value(ty) => ty.copy(alloc),
            SourceType::Made(ty) => copied(alloc, ty),
        }
    }
}
