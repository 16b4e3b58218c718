//! The nets of formulas: those of the operands, from the first one to the last, then the net of the formula's own
//! operator. Where they stand, the last one carries what the formula is worth.
#![tactic(auto)]

mod listing;
mod pushing;

pub use pushing::{formulas_compute, push_formula};
