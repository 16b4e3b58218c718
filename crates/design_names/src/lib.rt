//! The names of a design: for each rule on names, the first place at which it is broken. All of it takes time
//! in n log n, whatever the text.
#![tactic(auto)]

mod declared_twice;
mod design_names;
mod directions;
mod undeclared;
mod unused;
mod used_twice;

pub use design_names::DesignNames;
