//! The readers of one token of a Verilog text. Each goes past the token that is due, and past no other.
#![tactic(auto)]

pub mod law;
pub mod steps;

pub use law::steps_law;
