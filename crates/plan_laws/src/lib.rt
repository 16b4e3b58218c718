//! What is known of the plan of a body from its names: where each name stands before it is taken, and is used
//! once, the plan is good.
#![tactic(auto)]

mod laws;

pub use laws::{ahead_law, blocks_law, plan_law};
