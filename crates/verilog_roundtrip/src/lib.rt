//! Printed Verilog texts are cut into the tokens of their modules.
#![tactic(auto)]

mod laws;

pub use laws::{good_texts_are_cut_law, texts_are_cut_law};
