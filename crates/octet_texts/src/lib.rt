//! Octets as the cases of programs say and print them, and random ones.
#![tactic(auto)]

mod octets;
mod random;

pub use octets::{digits_of, items_of, octets_of, text_of};
pub use random::{random_letters, random_octets};
