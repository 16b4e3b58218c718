//! The parts that stand for the operations of a design that breaks no rule are good, and fit.
#![tactic(auto)]

mod laws;

pub use laws::fitted_law;
