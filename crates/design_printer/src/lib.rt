//! The canonical text of a design: one token after another (docs/design-text.md, section "Printing").
#![tactic(auto)]

mod declarations;
mod design;
mod expressions;
pub mod law;
mod leaves;
mod printer;
mod statements;
mod types;

pub use design::print_tree;
pub use law::canonical_law;
