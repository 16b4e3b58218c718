//! Laws of the streams of a connection over its history (RFC 9113, sections 5.1 and 5.2): which streams
//! are open, how much DATA the windows let through, and that nothing comes after an error, as questions of the entries.
#![tactic(auto)]

pub mod ended;
pub mod streams;
pub mod windows;

pub use ended::ended_law;
pub use streams::streams_law;
pub use windows::windows_law;
