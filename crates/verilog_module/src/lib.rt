//! Verilog modules of the subset that is written and read here: how one is written, which ones are good, what they mean, and the
//! module of a netlist, which means the netlist's run.
#![tactic(auto)]

mod laws;
mod limits;
pub mod module;
pub mod right;

pub use laws::{good_module_law, module_meaning_law};
pub use limits::{LONGEST_NAME, MAX_ENDPOINTS};
pub use module::{Declared, EndpointLine, Offer};
pub use right::Right;
