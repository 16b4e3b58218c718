//! What a session over a lowered netlist is: the netlist with its ports as a circuit, the journal played again, and what each call
//! keeps. Nothing is run here; the functions do nothing, and their contracts are the laws.
#![tactic(auto)]

mod laws;

pub use laws::{journals_are_replayed, nets_settle_as_computed};
