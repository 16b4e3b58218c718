//! The table of the parts of a design, and for each element of its bodies, in element order, which of them
//! stands for it.
#![tactic(auto)]

mod bodies;
mod body;
pub mod design_parts;
mod laws;
mod numbering;

pub use bodies::list_parts;
pub use design_parts::DesignParts;
pub use laws::parts_law;
