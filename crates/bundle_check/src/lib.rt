//! The checks of a design that was read: accepted, or refused by the first rule that it breaks
//! (docs/design-text.md, docs/refusals.md).
#![tactic(auto)]

pub mod checked;
mod checking;
mod kept;
mod planning;

pub use checked::Checked;
pub use checking::check;
