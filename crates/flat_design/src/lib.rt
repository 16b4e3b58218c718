//! The flat list of a design: the elements of all instances in place, over numbered channels. A design is
//! given as plans, one for each body; a plan has no names, and says of each source which of its body's
//! channels it is.
#![tactic(auto)]

pub mod element;
mod laws;
mod laying;
pub mod plan;

pub use element::{Element, Flat};
pub use laws::flat_law;
pub use laying::flat_design;
pub use plan::{Plan, Step};
