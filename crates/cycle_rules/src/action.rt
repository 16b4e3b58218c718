//! What drives a simulation.

use esi_base::Word;

/// An action that drives a simulation, as a stimulus gives them.
#[derive(Clone, Copy, Debug)]
pub enum Action {
    /// A value is put on a to-server channel, where it waits to be taken.
    Put { channel: u32, word: Word },
    /// The switch of a to-client channel is set: values are handed on it only where it is on.
    Ready { channel: u32, on: bool },
    /// So many cycles run.
    Run { cycles: u32 },
}
