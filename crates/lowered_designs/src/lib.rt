//! What designs do that are lowered: the words that go over the channels of their netlists are those of their stream functions. Nothing
//! is run here; the functions do nothing, and their contracts are the laws.
#![tactic(auto)]

mod laws;

pub use laws::{
    fifos_are_ready, fitting_lists_are_signalled_well, lowered_designs_follow_flow,
    lowered_lists_run, lowered_lists_stand, lowered_loads_fall, pipes_stand,
    planned_designs_are_ready, sessions_hand_prefixes,
};
