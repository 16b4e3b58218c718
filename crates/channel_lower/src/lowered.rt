//! A netlist with its ports.

use esi_base::List;
use netlist::Sealed;

/// The nets of a channel.
#[derive(Clone, Copy, Debug, PartialEq, Eq)]
pub struct Port {
    /// The valid net, of one bit.
    pub valid: u32,
    /// The net of the word.
    pub word: u32,
    /// The ready net, of one bit.
    pub ready: u32,
}

/// The netlist of a flat list, and where its endpoints are.
#[derive(Drop)]
pub struct Lowered {
    /// The netlist, in which each register has its next net.
    pub net: Sealed,
    /// The port of each to-server endpoint, in order: valid and word are inputs of the netlist.
    pub servers: List<Port>,
    /// The port of each to-client endpoint, in order: ready is an input of the netlist.
    pub clients: List<Port>,
}
