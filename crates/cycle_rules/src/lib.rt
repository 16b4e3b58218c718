//! The rules of a cycle, for any circuit and any number of channels: what a ring is and what a cycle does,
//! how a simulation chooses what is taken and handed, that no ring is lost, that no value that is put is
//! lost before it is taken, that a circuit which keeps its values in order hands them out in the order in
//! which they were taken, and how much rings hold at most.
#![tactic(auto)]

ghost use Rattle.std.specs.Prelude.{List};
ghost use Rattle.cycle_rules.specs.Circuit.{Bits, Circuit};
ghost use Rattle.cycle_rules.specs.Order.{KeepsOrder, StaysInOrder};

pub mod action;
mod channels;
pub mod limits;
mod puts;
mod sizes;
pub mod transfer;

pub use action::Action;
pub use channels::channels_stay;
pub use limits::{RING_VALUES, SESSION_VALUES};
pub use puts::puts_are_kept;
pub use sizes::rings_stay_within;
pub use transfer::Transfer;

/// The law of order. A circuit of one channel each way that keeps its values in order hands out, after
/// any actions from an empty start, the words that were taken, in their order: the words taken are the
/// words handed, followed by those that are still in the rings and in the circuit. `S` is what the
/// circuit consists of.
pub fn values_stay_in_order<S>()
    ensures { (circuit : Circuit S) (held : S → List Bits) → KeepsOrder circuit held → StaysInOrder circuit held }
{}
