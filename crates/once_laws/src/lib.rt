//! The plans of a design that breaks no rule are good.
#![tactic(auto)]

mod laws;

pub use laws::{accepted_law, stage_body_law};
