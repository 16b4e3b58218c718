//! Tests of what is asked of nets, words and parts, for programs that make netlists at run time.
#![tactic(auto)]

mod checked;
mod widths;

pub use checked::{are_held, are_inputs, fits, may_take};
pub use widths::{is_good_part, is_width, width_behind_one, width_behind_two};
