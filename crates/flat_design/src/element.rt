//! The flat list.

use esi_base::List;

/// An element between numbered channels.
#[derive(Debug, Drop)]
pub struct Element {
    /// The number of its part, in the table of the design's parts.
    pub part: usize,
    /// The channels that it takes.
    pub sources: List<usize>,
    /// The channels that it makes.
    pub sinks: List<usize>,
}

/// The elements of a design over numbered channels: the to-server channels first, then those that the
/// elements make, numbered in the order in which they are made.
#[derive(Debug, Drop)]
pub struct Flat {
    /// The elements, in element order.
    pub elements: List<Element>,
    /// The width of each channel, in bits.
    pub widths: List<u32>,
}
