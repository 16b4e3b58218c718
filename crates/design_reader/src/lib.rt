//! Reads a whole design (docs/design-text.md): its declarations and its top, or its pipe.
#![tactic(auto)]

mod bundles;
mod design;
pub mod law;
mod modules;
mod services;

pub use design::next_design;
pub use law::design_law;
