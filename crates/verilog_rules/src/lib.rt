//! The rules by which a Verilog text is refused, and which of them a token breaks where something else is due.
#![tactic(auto)]

pub mod due;
pub mod rule;

pub use due::Due;
pub use rule::ReadingRule;
