//! Reads the text of a channel type (docs/design-text.md).
#![tactic(auto)]

mod reading;
mod rules;
mod type_text;

pub use type_text::{next_type, parse_type, read_type};
