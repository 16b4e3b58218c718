//! Types of values, without copies of the types of a text.
ghost use Rattle.std.specs.Prelude.{◌≡◌, IfOk};
ghost use Rattle.channel_types.specs.SameTypes.{same_types};
ghost use Rattle.expression_types.specs.Views.{type_in};
ghost use Rattle.channel_types.specs.declared.esi_type.EsiType.TheOpen.{EsiType-F};
ghost use Rattle.expression_types.specs.Typing.{value_width, number_type, level_number, ranged};

use crate::number_type::NumberType;
use channel_types::{Class, EsiType, WIDEST_TYPE, are_same, capped_width, copied};
use esi_base::NoMemory;
use std::alloc::Global;

/// The type of a value: one that stands elsewhere, in the text or at a variable, or a bits type of its own.
/// It takes no memory.
#[derive(Clone, Copy, Debug)]
pub enum ValueType<'a> {
    /// A type that stands elsewhere.
    Given(&'a EsiType),
    /// A bits type.
    Number(NumberType),
}

impl<'a> ValueType<'a> {
    /// The width in bits, where it is one that values have, as that of each type of a design is.
    pub fn width(&self) -> Option<u32>
        ensures { result ≡ value_width (type_in self.now) }
    {
        match self {
            ValueType::Given(ty) => value_width(ty),
            ValueType::Number(number) => value_width(&number.ty()),
        }
    }

    /// The type as a bits type, where it is one.
    pub fn number(&self) -> Option<NumberType>
        ensures { result ≡ number_type (type_in self.now) }
    {
        match self {
            ValueType::Given(ty) => number_type_of(ty),
            ValueType::Number(number) => number_type_of(&number.ty()),
        }
    }

    /// Whether the type is this one.
    pub fn is(&self, other: &EsiType) -> bool
        ensures { result ≡ same_types (type_in self.now) other.now }
    {
        match self {
            ValueType::Given(ty) => are_same(ty, other),
            ValueType::Number(number) => are_same(&number.ty(), other),
        }
    }

    /// Whether the two are one type.
    pub fn is_same(&self, other: &ValueType<'a>) -> bool
        ensures { result ≡ same_types (type_in self.now) (type_in other.now) }
    {
        match other {
            ValueType::Given(ty) => self.is(ty),
            ValueType::Number(number) => self.is(&number.ty()),
        }
    }

    /// The type as one of its own.
    pub fn copy(&self, alloc: Global) -> Result<EsiType, NoMemory>
        ensures { IfOk result (λ copy. copy ≡ type_in self.now) }
    {
        match self {
            ValueType::Given(ty) => copied(alloc, ty),
            ValueType::Number(number) => Ok(number.ty()),
        }
    }
}

/// The width of a type in bits, where it is one that values have: 1 to `WIDEST_TYPE`, as that of each
/// type of a design is. It takes no memory.
pub fn value_width(ty: &EsiType) -> Option<u32>
    ensures { result ≡ value_width ty.now }
{
    ranged(capped_width(ty))
}

/// A width, where values have it.
fn ranged(width: u32) -> Option<u32>
    ensures { result ≡ ranged width }
{
    if 1 <= width && width <= WIDEST_TYPE {
        Some(width)
    } else {
        None
    }
}

/// A type as a bits type, where it is one of 1 to `WIDEST_TYPE` bits. It takes no memory.
#[tactic(auto, unfolding(crate::specs::Typing::number_type))]
pub fn number_type_of(ty: &EsiType) -> Option<NumberType>
    ensures { result ≡ number_type ty.now }
{
    match ty {
        EsiType::Bits { class, width } => number_within(*class, *width),
        EsiType::Void => None,
        EsiType::Struct(_) => None,
        EsiType::Array { item: _, count: _ } => None,
    }
}

/// The bits type of a class and a width, where values have it.
fn number_within(class: Class, width: u32) -> Option<NumberType>
    ensures { result ≡ level_number (EsiType-F.Bits class width) }
{
    if 1 <= width && width <= WIDEST_TYPE {
        Some(NumberType { class, width })
    } else {
        None
    }
}
