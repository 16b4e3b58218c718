//! The printed text of a Verilog module: its tokens in their order, one item a line.
#![tactic(auto)]

mod block;
mod constants;
mod endpoints;
mod laws;
mod nets;
pub mod piece;
mod printing;
mod putting;
mod rights;
mod tokens;

pub use laws::text_law;
pub use piece::Piece;
pub use printing::print_module;
