//! The open streams of one HTTP/2 connection, and which end has ended each (RFC 9113, section 5.1).
#![tactic(auto)]

mod open_stream;
mod table;

pub use open_stream::OpenStream;
pub use table::StreamTable;
