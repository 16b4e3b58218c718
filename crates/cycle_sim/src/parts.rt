//! The parts of a simulator: what is made of the netlist once, and what a cycle changes.

use crate::marks::Marks;
use crate::users::Users;
use crate::values::Values;
use esi_base::List;
use netlist::Sealed;

/// The netlist, who uses each net, and the places of the inputs.
#[derive(Drop)]
pub(crate) struct Wiring {
    pub net: Sealed,
    pub users: Users,
    pub inputs: List<u32>,
}

/// The words of all nets, the nets that have to be evaluated, and the registers whose next nets changed.
#[derive(Drop)]
pub(crate) struct State {
    pub values: Values,
    pub marks: Marks,
    pub waiting: Marks,
}
