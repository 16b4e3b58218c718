//! Whether a flat list is good, for programs that make flat lists at run time.
#![tactic(auto)]

mod flat;
mod marks;

pub use flat::is_flat_design;
