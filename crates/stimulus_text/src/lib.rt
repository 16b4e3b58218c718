//! The stimulus of a simulation (docs/small-texts.md, "Stimulus"): what is put, which endpoints are
//! ready and how many cycles are run.
#![tactic(auto)]

pub mod limits;
pub mod reading;
pub mod rule;
pub mod step;

pub use limits::{LARGEST_RUN, LONGEST_STIMULUS, STIMULUS_CYCLES, STIMULUS_LINES};
pub use reading::read_stimulus;
pub use rule::StimulusRule;
pub use step::{Step, Stimulus};
