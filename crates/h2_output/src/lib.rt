//! The output of one connection: octets that were written and not sent yet, of which there are so many
//! at most, in memory that is had once.
#![tactic(auto)]

mod limits;
mod output;

pub use limits::MOST_UNSENT;
pub use output::Output;
