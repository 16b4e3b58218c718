//! Which part of the table stands for each element of a design that breaks no rule.
#![tactic(auto)]

mod laws;

pub use laws::listed_law;
