//! The plans of all bodies of a design, which are good where each name of a body is used once. From here on a
//! design has no names.
#![tactic(auto)]

mod bodies;
mod body;
pub mod design_plans;
pub mod kept;
mod laws;

pub use bodies::plan_bodies;
pub use design_plans::DesignPlans;
pub use laws::design_law;
