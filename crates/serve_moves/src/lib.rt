//! Laws of what a server's rule takes and hands. Its definitions stand in `specs/`; here are the laws, which
//! do nothing when they run. `S` is what the circuit consists of.
#![tactic(auto)]

pub mod journal;
pub mod takes;

pub use journal::journal_law;
pub use takes::{filled_law, filled_sessions_law};
