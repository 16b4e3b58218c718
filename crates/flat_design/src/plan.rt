//! Plans: what a body does, over the places of its channels.

use esi_base::List;

/// What a body does. Its channels are those that it is given, then those that its steps make, step by step;
/// wherever a plan speaks of a channel, it has its place among these. A body is given its `in` ports and
/// the to-server endpoints that belong to it and to the instances in it; it hands out its `out` ports and
/// the to-client endpoints.
#[derive(Debug, Drop)]
pub struct Plan {
    /// What is done, in element order: each step takes channels that were given or made before it.
    pub steps: List<Step>,
    /// The places of the channels that are handed out.
    pub outs: List<usize>,
}

/// A step of a plan.
#[derive(Debug, Drop)]
pub enum Step {
    /// An element stands here.
    Element {
        /// The number of its part, in the table of the design's parts.
        part: usize,
        /// The places of the channels that it takes.
        sources: List<usize>,
        /// The width of each channel that it makes, in bits.
        widths: List<u32>,
    },
    /// Another body stands here. It makes as many channels as that one hands out.
    Instance {
        /// The number of its plan.
        body: usize,
        /// The places of the channels that it is given.
        sources: List<usize>,
    },
}
