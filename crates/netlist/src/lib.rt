//! Netlists: nets in order, each an operator over nets before it, and registers with their next nets.
//! What words they settle to, how that goes on from cycle to cycle, and the evaluation of one net. Formulas,
//! from which nets come, and the parts that elements of a design are.
#![tactic(auto)]

mod evaluation;
pub mod formula;
mod laws;
mod limits;
mod narrow;
mod net;
mod netlist;
pub mod part;
mod sealed;
mod settling;
mod sources;
mod steps;

pub use formula::{Formula, Half};
pub use laws::{formula_widths_law, one_run_law, one_settled_assignment_law, settled_widths_law};
pub use limits::{
    MAX_BRANCHES, MAX_DEPTH, MAX_NETS, MAX_NUMBER_WIDTH, MAX_WIDTH, MIN_BRANCHES, MIN_DEPTH,
};
pub use net::{Net, Sources};
pub use netlist::{NetRefused, Netlist};
pub use part::Part;
pub use sealed::Sealed;
pub use steps::Steps;
