//! What a session notes, and what it reports at its end.
use esi_base::{List, Word};

/// A value that was taken from a client for a to-server channel.
#[derive(Clone, Copy, Debug, Drop)]
pub struct Taken {
    /// The cycle in which it was taken; cycles are numbered from 0.
    pub cycle: u64,
    /// The number of its to-server channel.
    pub channel: u32,
    /// The connection that it came on, and 0 where no connection stands behind it.
    pub conn: u32,
    /// The stream that it came on, and 0 where no connection stands behind it.
    pub stream: u32,
    /// The value's bits.
    pub word: Word,
}

/// That a to-client channel handed a value out.
#[derive(Clone, Copy, Debug, Drop)]
pub struct Handed {
    /// The cycle in which it was handed; cycles are numbered from 0.
    pub cycle: u64,
    /// The number of its to-client channel.
    pub channel: u32,
}

/// That a stream was attached to a to-client channel.
#[derive(Clone, Copy, Debug, Drop)]
pub struct Attachment {
    /// The number of the to-client channel.
    pub channel: u32,
    /// The connection of the stream.
    pub conn: u32,
    /// The number of the stream on its connection.
    pub stream: u32,
}

/// What a session has noted so far. Each list grows at its end.
#[derive(Debug, Drop)]
pub struct Journal {
    /// How many cycles have ended, which is the number of the cycle that runs.
    pub cycles: u64,
    /// The values taken.
    pub taken: List<Taken>,
    /// The values handed.
    pub handed: List<Handed>,
    /// The streams attached.
    pub attached: List<Attachment>,
}

/// What a session reports at its end: its journal and the contents of the registers.
#[derive(Debug, Drop)]
pub struct Report {
    /// How many cycles were run.
    pub cycles: u64,
    /// The values taken, in the order in which they were noted.
    pub taken: List<Taken>,
    /// The values handed, in the order in which they were noted.
    pub handed: List<Handed>,
    /// The streams attached, in the order in which they were noted.
    pub attached: List<Attachment>,
    /// The words that the registers hold after the last cycle, in order of their numbers.
    pub registers: List<Word>,
}
