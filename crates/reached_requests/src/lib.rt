//! The requests that are reached from the top of a design, in the order in which its instances are walked in
//! place.
#![tactic(auto)]

mod ids;
mod modules;
mod request;
mod walk;

pub use request::ReachedRequest;
pub use walk::reached_requests;
