//! What the commands of `esi_cosim` mean and do, and the top call, which runs the command that the words
//! ask for.
#![tactic(auto)]

pub mod format;
mod input;
mod output;
pub mod program;
pub mod sim;
pub mod simulation_rule;
mod top_call;

pub use format::run_format;
pub use sim::run_sim;
pub use simulation_rule::SimulationRule;
pub use top_call::{one_row_law, run};
