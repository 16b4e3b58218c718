//! The elements of a design over channels, without nets: what a channel is over a run, what each element does
//! in one cycle, and the law that it obeys in every run. Definitions and lemmas stand in `specs/`, so that
//! other crates' proofs can cite them; there is no code here but the laws themselves.
#![tactic(auto)]

ghost use Rattle.element_laws.specs.Laws.{EachObeys};

mod histories;

pub use histories::transfers_are_in_order;

/// The law of each element, over cycles of any type `C`: in every run in which its inputs keep their refused
/// offers, what went out is told by what came in and what the element holds, its outputs keep their refused
/// offers too, and each output has offered a prefix of the element's stream of what its inputs have offered.
/// It does nothing when it runs.
pub fn elements_obey<C>()
    ensures { EachObeys C }
{}
