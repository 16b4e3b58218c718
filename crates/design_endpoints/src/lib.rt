//! The endpoints of a design with their names, and the rules on them: that the services which are asked for are implemented, and
//! that names and types are short enough to be told to clients.
#![tactic(auto)]

mod bind_rule;
mod binding;
mod breaking;
mod limits;
mod naming;

pub use bind_rule::{BindBreak, BindRule};
pub use binding::{Ends, design_endpoints};
pub use limits::{LONGEST_NAME, LONGEST_TYPE};
