//! From the wires of elements to their cycles: what the nets of each element say of one cycle in bits and
//! numbers, and that an element whose wires say this is the element of the laws. Definitions and lemmas
//! stand in `specs/`; there is no code here but the laws themselves, which do nothing when they run.
#![tactic(auto)]

ghost use Rattle.element_wires.specs.WireLaws.{WiresMakeCycles, WiresMakeRuns};

mod fifo;
mod stage;

pub use fifo::fifos_store;
pub use stage::stages_store;

/// Each element other than a stage or a fifo, wired as the table of lowering says, does in each cycle what
/// the element does.
pub fn wires_make_cycles()
    ensures { WiresMakeCycles }
{}

/// So over a run that begins with what the element holds at reset, whose every cycle is wired so: it is a run
/// of the element.
pub fn wires_make_runs<C>()
    ensures { WiresMakeRuns C }
{}
