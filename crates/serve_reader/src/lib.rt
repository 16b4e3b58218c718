//! What a server reads: requests, as the history of a connection has them, and the reader of the rule that
//! they make. Its definitions stand in `specs/`; here is the limit of a request, and a law, which does
//! nothing when it runs. `S` is what the circuit consists of.
#![tactic(auto)]

pub mod limits;
pub mod reading;

pub use reading::reading_law;
