//! What the programs of cases share: numbers that look random, from a seed, and octets as a case has them.
#![tactic(auto)]

mod numbers;
mod parts;

pub use numbers::Numbers;
pub use parts::octets_of;
