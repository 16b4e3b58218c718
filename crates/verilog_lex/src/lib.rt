//! Verilog texts of the subset that is written and read here, cut into tokens: a cursor over the tokens of a text.
#![tactic(auto)]

mod constants;
pub mod cursor;
mod cutting;
pub mod law;
pub mod limits;
mod numbers;
mod octets;
pub mod rule;
mod words;

pub use cursor::Cursor;
pub use law::{spelled_law, tokens_law};
pub use limits::{GREATEST_NUMBER, LONGEST_VERILOG};
pub use rule::TokenRule;
