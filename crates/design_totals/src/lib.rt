//! How large a design's top is and how many endpoints it has, its instances included, and whether that is
//! more than the limits. A module may have as much as a power of two of what stands in the text, so that all
//! counts stop at one above their limit. It takes no recursion.
#![tactic(auto)]

mod bodies;
mod capped;
mod design_totals;
mod statements;

pub use design_totals::DesignTotals;
