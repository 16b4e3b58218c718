//! Lowered netlists and their Verilog modules: the ports of a lowered netlist are an interface of it.
#![tactic(auto)]

mod laws;

pub use laws::lowered_interfaces_law;
