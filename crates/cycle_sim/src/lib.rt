//! Simulation of a netlist cycle by cycle, in which only nets are evaluated whose sources changed.
#![tactic(auto)]

mod clock;
mod cycle;
mod marks;
mod offering;
mod parts;
mod pass;
mod putting;
mod sim;
mod start;
mod users;
mod values;

pub use sim::Sim;
