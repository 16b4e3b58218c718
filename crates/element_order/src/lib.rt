//! The order of a body's elements, over numbers alone: again and again the first one in text order all of
//! whose sources are ready. What an element needs are the places, among the elements in text order, of
//! those whose channels it takes.
#![tactic(auto)]

mod cycle;
mod feeds;
mod laws;
mod order;
mod worklist;

pub use cycle::first_on_cycle;
pub use laws::order_law;
pub use order::element_order;
