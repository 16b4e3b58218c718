//! Reads the statements of a body (docs/design-text.md).
#![tactic(auto)]

pub mod law;
mod operations;
mod references;
mod statements;

pub use law::statement_law;
pub use statements::{begins_statement, next_statement};
