//! What an element of a body is once types are known.
use netlist::Part;

/// What stands for an element of a body, and how wide the words of its channels are, in bits. Widths above
/// the greatest one are `TOO_WIDE`.
#[derive(Debug, Drop)]
pub enum TypedElement {
    /// Stages in a row: one, or those of a buffer.
    Stages {
        /// How many stages.
        count: u32,
        /// The width of their words, and of the channel's.
        width: u32,
    },
    /// One part.
    Part {
        /// The part.
        part: Part,
        /// The width of the words of each channel that it makes.
        width: u32,
    },
    /// An instance, for which the elements of its module stand.
    Instance,
    /// An operation of which a source has no type. In a design whose names are declared once, and whose
    /// statements do not depend on themselves, there is none.
    Unknown,
}
