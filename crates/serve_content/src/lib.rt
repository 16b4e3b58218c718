//! What the content of a call asks a server for, by the rules of calls. Its definitions stand in `specs/`;
//! here is the law, which does nothing when it runs. `S` is what the circuit consists of.
#![tactic(auto)]

pub mod reading;

pub use reading::content_law;
