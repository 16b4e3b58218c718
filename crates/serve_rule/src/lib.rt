//! The rule of a server's turn, as functions from list to list of acts, and its laws. Its definitions stand
//! in `specs/`; here are the laws, which do nothing when they run. `S` is what the circuit consists of.
#![tactic(auto)]

pub mod sessions;

pub use sessions::{log_law, offer_law, session_law};
