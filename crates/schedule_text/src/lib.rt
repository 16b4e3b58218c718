//! The schedule of a session between a client and a server (docs/small-texts.md, "Schedule"): which
//! end takes its turns, and how many octets move from one to the other.
#![tactic(auto)]

pub mod limits;
pub mod reading;
pub mod rule;
pub mod step;

pub use limits::{LARGEST_MOVE, LARGEST_ROUND, LONGEST_SCHEDULE, SCHEDULE_LINES, SCHEDULE_ROUNDS};
pub use reading::read_schedule;
pub use rule::ScheduleRule;
pub use step::{Move, Schedule};
