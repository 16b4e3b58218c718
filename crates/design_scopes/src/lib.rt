//! The bodies of a design, and what can be named in each, found by name in time log n.
#![tactic(auto)]

pub mod bodies;
pub mod body;
pub mod body_names;
pub mod bundles;
pub mod declared;
mod lookup;
pub mod modules;
pub mod resolving;
pub mod scope_names;
pub mod services;
