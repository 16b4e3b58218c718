//! How a command ended, as its caller sees it.
use endpoint_hub::Report;
use esi_base::{Octets, Refusal};

/// What the status's line says beside the status.
#[derive(Debug, Drop)]
pub enum Cause {
    /// Nothing beside the status.
    Plain,
    /// A text is refused: the number of its file's name, from 0, among the words after the command,
    /// and the refusal. With status 2.
    Refused { word: u32, refusal: Refusal },
    /// The peer broke its protocol, with this code. With status 6.
    PeerFault { code: u32 },
    /// The peer answered a call with a status other than the one expected. With status 6.
    PeerStatus { name: Octets, status: u8 },
    /// So many calls and values were still expected. With status 7.
    Unfinished { count: u64 },
    /// So many turns were spent. With status 9.
    Turns { count: u32 },
}

/// Whether the status's line was written to its sink.
#[derive(Clone, Copy, Debug, PartialEq, Eq)]
pub enum Told {
    /// The whole line, which for status 0 is empty.
    Whole,
    /// A prefix of it: the sink failed.
    Fault,
    /// A prefix of it: memory ran out.
    NoMemory,
}

/// How a command ended.
#[derive(Debug, Drop)]
pub struct Outcome {
    /// 0 Ok, 1 usage, 2 refused, 3 read fault, 4 write fault, 5 link fault, 6 peer fault, 7 ended
    /// early, 8 out of memory, 9 turns spent.
    pub status: u8,
    /// What the status's line says beside the status.
    pub cause: Cause,
    /// Whether that line was written.
    pub told: Told,
    /// What a served session reports at its end; None for a command that serves none.
    pub report: Option<Report>,
}
