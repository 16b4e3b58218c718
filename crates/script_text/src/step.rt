//! What a script is.
use esi_base::{List, Octets};

/// What a client does, step by step.
#[derive(Debug, Drop)]
pub struct Script {
    /// The steps, one for each line that counts, in order.
    pub steps: List<ScriptStep>,
}

/// A step of a script.
#[derive(Debug, Drop)]
pub enum ScriptStep {
    /// `attach NAME`: a channel is attached, and the call is answered with a status, 0 where the line
    /// says none.
    Attach {
        name: Octets,
        status: u8,
    },
    /// `send NAME OCTETS`: a value is sent, and the call is answered with a status, 0 where the line
    /// says none.
    Send {
        name: Octets,
        octets: Octets,
        status: u8,
    },
    /// `expect NAME N`: so many values come in all from a channel that was attached before.
    Expect {
        name: Octets,
        count: u32,
    },
    /// `list`: the channels are asked for.
    Listing,
}
