//! What a stimulus is.
ghost use Rattle.std.specs.Prelude.{◌≡◌};

use esi_base::{List, Octets, Place};

/// What a simulation has to do, step by step.
#[derive(Debug, Drop)]
pub struct Stimulus {
    /// The steps, one for each line that counts, in order.
    pub steps: List<Step>,
}

/// A step of a stimulus.
#[derive(Debug, Drop)]
pub enum Step {
    /// `put NAME OCTETS`: the octets are put on the endpoint of the name.
    Put {
        /// The endpoint's name, as the text has it.
        name: Octets,
        /// The value's octets.
        octets: Octets,
        /// Where the name stands.
        place: Place,
        /// Where the octets stand.
        octets_place: Place,
    },
    /// `ready NAME 0|1`: from here on the endpoint of the name is ready or not.
    Ready {
        /// The endpoint's name, as the text has it.
        name: Octets,
        /// Whether it is ready.
        on: bool,
        /// Where the name stands.
        place: Place,
    },
    /// `run N`: so many cycles are run.
    Run {
        /// How many cycles.
        cycles: u32,
    },
}

impl Step {
    ghost use Rattle.stimulus_text.specs.Stimulus.{cycles_of};

    /// How many cycles the step runs.
    pub fn cycles(&self) -> u32
        ensures { result ≡ cycles_of self.now }
    {
        match self {
            Step::Put { .. } | Step::Ready { .. } => 0,
            Step::Run { cycles } => *cycles,
        }
    }
}
