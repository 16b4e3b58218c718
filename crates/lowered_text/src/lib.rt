//! The Verilog text of a lowered netlist.
#![tactic(auto)]

mod printing;

pub use printing::print_lowered;
