//! Where the type of a reference comes from.
use channel_types::EsiType;

/// Where the type of what a reference is to comes from.
#[derive(Clone, Copy, Debug)]
pub enum Origin<'a> {
    /// It is declared.
    Declared(&'a EsiType),
    /// It is that of the channels that an element makes, by the element's number.
    Maker(usize),
    /// It has none.
    Nowhere,
}
