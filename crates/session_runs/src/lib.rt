//! A session from its first cycle to its last: what is handed is a beginning of the stream of what is taken, and in one without joins that
//! ends with enough quiet cycles nothing is missing. Nothing is run here; the functions do nothing, and their contracts are the laws.
#![tactic(auto)]

mod laws;

pub use laws::{handed_words_begin_the_stream, sessions_settle};
