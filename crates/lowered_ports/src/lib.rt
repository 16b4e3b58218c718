//! That the inputs of a lowered netlist are those of its ports. Nothing is run here; the function does nothing, and its contract is the
//! law.
#![tactic(auto)]

mod laws;

pub use laws::{lowered_lists_have_ports, only_ports_are_inputs};
