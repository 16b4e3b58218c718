//! The script of a client (docs/small-texts.md, "Script"): which channels it attaches, what it sends,
//! and how many values it waits for.
#![tactic(auto)]

pub mod earlier;
pub mod limits;
pub mod reading;
pub mod rule;
pub mod step;

pub use limits::{
    LARGEST_COUNT, LARGEST_STATUS, LONGEST_NAME, LONGEST_SCRIPT, SCRIPT_ATTACHES, SCRIPT_LINES,
};
pub use reading::read_script;
pub use rule::ScriptRule;
pub use step::{Script, ScriptStep};
