//! What a statement breaks by itself, whatever its scope has: counts out of their range, and variables that are not bound.
#![tactic(auto)]

mod counts;
mod variables;

pub use counts::first_count;
pub use variables::statement_variables;
