//! The plans of a design, from its syntax tree, with the table of the parts that stand for its elements. From
//! here on a design has no names and no types.
#![tactic(auto)]

mod names;
pub mod planned_design;
mod planning;

pub use planned_design::PlannedDesign;
pub use planning::plan_design;
