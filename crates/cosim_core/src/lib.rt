//! The core of the cosimulation server: a session over a lowered netlist, cycle by cycle.
#![tactic(auto)]

mod cycle;
mod gathering;
mod handing;
mod parts;
mod places;
mod session;
mod settling;
mod transfers;
mod words;

pub use session::Session;
