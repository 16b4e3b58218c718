//! The texts that the commands read: the design (docs/design-text.md), and by the names of crate
//! `stimulus_text` the stimulus (docs/small-texts.md).
#![tactic(auto)]

pub mod design;
pub mod laws;
pub mod limits;
mod places;
pub mod printing;
pub mod reading;
pub mod rule;

pub use design::Design;
pub use limits::LONGEST_DESIGN;
pub use printing::print_design;
pub use reading::read_design;
pub use rule::DesignRule;
pub use stimulus_text::{LONGEST_STIMULUS, Step, Stimulus, StimulusRule, read_stimulus};
