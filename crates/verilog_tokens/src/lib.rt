//! Tokens of Verilog texts.
#![tactic(auto)]

pub mod token;

pub use token::{ConstantFault, Keyword, Port, PortRole, PortSide, Sign, Token};
