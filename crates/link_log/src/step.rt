//! What a log is.
use esi_base::{List, Octets};

/// What happened in a session, step by step.
#[derive(Debug, Drop)]
pub struct Log {
    /// The steps, one for each line that counts, in order.
    pub steps: List<LogStep>,
}

/// A step of a log. All but `Room` are events.
#[derive(Debug, Drop)]
pub enum LogStep {
    /// `opened`: a connection opened. The k-th, from 0, has the number k.
    Opened,
    /// `bytes C OCTETS`: an open connection brought octets, 1 to `LOG_OCTETS` of them.
    Bytes { conn: u32, octets: Octets },
    /// `writable C`: an open connection may take octets again.
    Writable { conn: u32 },
    /// `closed C`: an open connection is gone.
    Closed { conn: u32 },
    /// `idle`: nothing came.
    Idle,
    /// `fail`: the links failed to tell an event.
    Fail,
    /// `room C N`: from here on, until the next `room` of the connection, the sends to it take so many
    /// octets in all. Before any, they take all.
    Room { conn: u32, octets: u64 },
}
