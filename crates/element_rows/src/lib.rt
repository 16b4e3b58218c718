//! Elements in a row: the flat list of a design over numbered channels and its stream function, without nets.
//! Definitions and lemmas stand in `specs/`, so that other crates' proofs can cite them; there is no code
//! here but the laws themselves, which do nothing when they run.
#![tactic(auto)]

mod flow;
mod signalling;

pub use flow::{flow_grows, rest_is_whole, rows_follow_flow};
pub use signalling::fifos_are_read_well;
