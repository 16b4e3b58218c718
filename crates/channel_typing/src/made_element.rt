//! What an element makes.
use crate::origin::Origin;
use crate::own_type::OwnType;
use crate::typed_element::TypedElement;

/// The type of the channels that an element makes.
#[derive(Debug, Drop)]
pub enum NewType<'a> {
    /// The one of its source.
    Passed(Origin<'a>),
    /// Another one.
    Computed(OwnType<'a>),
    /// None that is known.
    Unknown,
}

/// What an element makes, and what stands for it.
#[derive(Debug, Drop)]
pub struct MadeElement<'a> {
    /// The type of the channels that it makes.
    pub ty: NewType<'a>,
    /// What stands for it.
    pub element: TypedElement,
}
