//! What the passes have made so far.

use buffer_stage::{Laid, Wire};
use esi_base::List;
use netlist::Netlist;

/// A netlist that is being lowered, pass by pass.
#[derive(Drop)]
pub struct Lowering {
    /// The nets so far.
    pub netlist: Netlist,
    /// The first register of each element, in element order.
    pub registers: List<u32>,
    /// The wires of the channels that have them.
    pub wires: List<Wire>,
    /// The nets of each element that has gone forward.
    pub row: List<Laid>,
    /// The ready net of each channel; 0 where it has none yet.
    pub readies: List<u32>,
}
