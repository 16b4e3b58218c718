//! Slots of types that are known.
use expression_types::ValueType;

/// What is known of the type of an element's channels.
#[derive(Clone, Copy, Debug)]
pub enum Slot<'a> {
    /// Nothing.
    Unknown,
    /// It stands in the text, or is a bits type.
    Value(ValueType<'a>),
    /// It was made, by its number among those that were.
    Made(usize),
}
