//! What stands for the elements of a body, in their order.

/// An element of a body, and what stands for it. For an instance the plan of its module stands, and only
/// the number counts.
#[derive(Clone, Copy, Debug)]
pub struct OrderedElement {
    /// Its number among the elements of the body, in the text's order.
    pub number: usize,
    /// The number of its part, in the table of the design's parts.
    pub part: usize,
    /// How many of this part stand in a row: the stages of a buffer, and 1 for every other element.
    pub count: usize,
    /// The width of the words of the channels that it makes, in bits.
    pub width: u32,
}
