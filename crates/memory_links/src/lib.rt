//! Links in memory that play the log of a session (docs/small-texts.md, "Log"): they tell its events
//! in order, take as much of each send as its rooms say, and tell their own log.
#![tactic(auto)]

pub mod conn;
pub mod law;
pub mod memory;
mod player;
mod step;
mod step_queue;

pub use conn::Conn;
pub use law::{memory_links_law, read_log_law};
pub use memory::MemoryLinks;
