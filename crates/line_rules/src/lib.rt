//! What the readers of small texts share whose lines say steps: the rules of a line as tests of its
//! parts, and the laws that what is read is a text exactly where no rule is broken.
#![tactic(auto)]

pub mod words;

pub use words::{is_word, refused_at};
