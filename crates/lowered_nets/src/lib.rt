//! What stands in the netlist that a flat list is lowered to: all nets of each element, between those of its channels. Nothing is run
//! here; the functions do nothing, and their contracts are the laws.
#![tactic(auto)]

mod laws;

pub use laws::{lowered_elements_have_their_nets, lowering_comes_to_its_end};
