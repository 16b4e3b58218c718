//! Types that an expression gives.
ghost use Rattle.channel_typing.specs.Typing.{width_in};
ghost use Rattle.std.specs.Prelude.{◌≡◌};
ghost use Rattle.channel_typing.specs.Views.{own_in};

use channel_types::{EsiType, capped_width};
use expression_types::ValueType;
use netlist::Formula;

/// A type that does not depend on the types of channels that were made.
#[derive(Debug, Drop)]
pub enum OwnType<'a> {
    /// One that stands in the text, or a bits type.
    Value(ValueType<'a>),
    /// One of its own.
    Own(EsiType),
}

impl<'a> OwnType<'a> {
    /// Its width in bits, where `TOO_WIDE` stands for all above the greatest one.
    pub(crate) fn width(&self) -> u32
        ensures { result ≡ width_in (own_in self.now) }
    {
        match self {
            OwnType::Value(ValueType::Given(ty)) => capped_width(ty),
            OwnType::Value(ValueType::Number(number)) => capped_width(&number.ty()),
            OwnType::Own(ty) => capped_width(ty),
        }
    }
}

/// An expression that fits, with a type of its own.
#[derive(Debug, Drop)]
pub struct Computed<'a> {
    /// The offset of its first octet.
    pub at: usize,
    /// Its type.
    pub ty: OwnType<'a>,
    /// What computes its value.
    pub formula: Formula,
}
