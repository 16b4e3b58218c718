//! Worked turns of a small server, and the octets that it sends. The rows stand in `specs/`; here are the
//! laws, which do nothing when they run.
#![tactic(auto)]

pub mod turns;

pub use turns::{greeted_law, many_streams_law, too_large_law};
