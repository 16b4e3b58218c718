//! The history of an HTTP/2 connection: which frames were read and put, and what each of them does
//! (RFC 9113, sections 5, 6 and 8). Its definitions stand in `specs/`; here are the values of which
//! they and the code of a connection speak.
#![tactic(auto)]

mod event;
mod header_block;
pub mod laws;
pub mod limits;
mod verdict;

pub use event::CallEvent;
pub use header_block::HeaderBlock;
pub use laws::{history_law, output_law};
pub use verdict::Verdict;
