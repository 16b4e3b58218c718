//! What a session is made of.

use channel_lower::Port;
use cycle_sim::Sim;
use endpoint_hub::Hub;
use esi_base::{List, Word};

/// What is made of a lowered netlist once.
#[derive(Drop)]
pub(crate) struct Wiring {
    /// The port of each to-server channel.
    pub(crate) servers: List<Port>,
    /// The port of each to-client channel.
    pub(crate) clients: List<Port>,
    /// A word of zeros for each to-server channel, as wide as its words.
    pub(crate) blanks: List<Word>,
    /// The numbers of the registers, in order.
    pub(crate) registers: List<u32>,
}

/// What changes from cycle to cycle.
#[derive(Drop)]
pub(crate) struct State {
    pub(crate) sim: Sim,
    pub(crate) hub: Hub,
    /// The word that each to-client channel handed in the last cycle.
    pub(crate) handed: List<Option<Word>>,
    /// The words of the inputs of the last cycle.
    pub(crate) inputs: List<Word>,
}
