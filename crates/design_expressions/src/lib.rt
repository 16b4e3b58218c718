//! Reads an expression of a design text (docs/design-text.md), and the names and numbers that all of a
//! design text has.
#![tactic(auto)]

pub mod law;
pub mod limits;
mod reading;
mod shapes;
mod suffixes;
mod words;

pub use law::expression_law;
pub use limits::OPEN_EXPRESSIONS;
pub use reading::next_expression;
pub use words::{next_name, next_number};
