//! What a flat list of a design means: its stream function, whether it joins channels, and the weight of each channel, which
//! says how many steps a value there still has to go.
#![tactic(auto)]

mod joins;
mod laws;
mod part_at;
mod weights;

pub use joins::has_join;
pub use laws::{flat_row_law, weights_fit_law};
pub use weights::{channel_weights, greatest_weight};
