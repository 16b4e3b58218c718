//! The first rule that a design breaks, as a definition that computes it from the tree (`specs/Breaks.antt`),
//! and the law that it is the one by which the checks of `check_rules` refuse the design.
#![tactic(auto)]

mod laws;

pub use laws::{dependence_law, first_breaks_law};
