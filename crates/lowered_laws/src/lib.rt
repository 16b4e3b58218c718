//! What a netlist does in which a flat list of elements stands: the words that go over its channels are those of the stream function.
//! Nothing is run here; the functions do nothing, and their contracts are the laws.
#![tactic(auto)]

mod laws;

pub use laws::{standing_loads_fall, standing_rows_follow_flow};
