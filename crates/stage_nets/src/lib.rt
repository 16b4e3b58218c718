//! The nets of stages, and of the two elements that change a channel's signalling, and the law that each of them obeys in
//! every run of a netlist in which its nets stand.
#![tactic(auto)]

pub mod signalling;
pub mod stage;

pub use signalling::{
    as_fifos_obey, as_vrs_obey, push_as_fifo_empty, push_as_vr_rden, push_as_vr_valid,
};
pub use stage::{StageNets, push_stage_next, push_stage_ready, push_stage_registers, stages_obey};
