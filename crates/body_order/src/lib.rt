//! What the elements of a body need of one another: the first of them that depends on itself, their order,
//! and the channels that are taken with another signalling than they have.
#![tactic(auto)]

pub mod elements;
mod laws;
mod order;
mod signals;

pub use elements::Elements;
pub use laws::{bodies_law, needs_law};
pub use order::place_of;
