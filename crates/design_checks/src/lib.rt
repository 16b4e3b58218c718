//! The checks of a design whose text was read, in their order (docs/design-text.md): the first rule that it
//! breaks, and where.
#![tactic(auto)]

mod bodies;
mod checking;
mod laws;
mod names;
pub mod rule_break;

pub use checking::first_break;
pub use laws::checks_law;
pub use rule_break::RuleBreak;
