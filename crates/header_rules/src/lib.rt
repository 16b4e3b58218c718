//! The rules of HTTP/2 header lists in words, and the law that a list is malformed exactly where it breaks
//! one (RFC 9113, sections 8.1 to 8.3).
#![tactic(auto)]

pub mod laws;

pub use laws::malformed_law;
