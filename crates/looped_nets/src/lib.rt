//! The nets of forks and FIFOs, which are made turn by turn, and the law that each of them obeys in every run
//! of a netlist in which they stand. The laws do nothing when they run.
#![tactic(auto)]

pub mod fifo;
pub mod fork;

pub use fifo::{
    FifoPlaces, count_width, fifos_obey, push_fifo_empty, push_fifo_next, push_fifo_ready,
    push_fifo_registers,
};
pub use fork::{
    ForkPlaces, forks_obey, push_fork_forward, push_fork_next, push_fork_ready, push_fork_registers,
};
