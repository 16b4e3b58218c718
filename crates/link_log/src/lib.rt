//! The log of a session (docs/small-texts.md, "Log"): what happened on the connections, and how much
//! the sends to them take.
#![tactic(auto)]

pub mod limits;
pub mod reading;
pub mod rule;
pub mod step;

pub use limits::{LARGEST_CONN, LARGEST_ROOM, LOG_LINES, LOG_OCTETS, LONGEST_LOG};
pub use reading::read_log;
pub use rule::LogRule;
pub use step::{Log, LogStep};
