//! Header lists of HTTP/2, well formed or malformed (RFC 9113, sections 8.2 and 8.3): requests, replies
//! and trailers.
#![tactic(auto)]

mod field;
mod kind;
mod list;

pub use kind::ListKind;
pub use list::{is_informational, is_malformed};
