//! A design has as many endpoints as its totals say, so that one that breaks no rule has at most 32 a side.
#![tactic(auto)]

mod laws;

pub use laws::{endpoint_counts_law, few_endpoints_law};
