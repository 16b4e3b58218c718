//! The netlist of a flat list of elements: the inputs of its ports, then registers, forward nets, backward nets and next nets.
#![tactic(auto)]

mod backward;
mod forward;
mod laws;
pub mod lowered;
pub mod lowering;
mod next;
mod passes;
mod ports;
mod registers;
mod whole;

pub use laws::fitting_lists_can_be_lowered;
pub use lowered::{Lowered, Port};
pub use lowering::Lowering;
pub use whole::lower;
