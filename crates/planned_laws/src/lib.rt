//! The plans and the parts of a design that breaks no rule.
#![tactic(auto)]

mod laws;

pub use laws::planned_law;
