//! The load of a row of elements without a join: how far the values under way still have to go, that no cycle
//! lets it rise, and that after as many cycles as it says nothing is missing. Definitions and lemmas stand
//! in `specs/`, so that other crates' proofs can cite them; there is no code here but the laws
//! themselves, which do nothing when they run.
#![tactic(auto)]

mod load;
mod rings;

pub use load::{all_arrives, load_balances, load_falls, load_is_what_came, weights_agree};
pub use rings::rings_are_lines;
