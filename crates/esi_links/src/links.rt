//! Links, over which connections come, bring octets and go.
ghost use Rattle.std.specs.Prelude.{◌≡◌, ℕ, ◌≤◌, List, [], Option, Bool, true, false, length, take, IfOk, OnOk, OnErr, IfSome, IsErrOf, IsTrue};
ghost use Rattle.esi_links.specs.declared.links.Entry.{Entry as LogEntry};
ghost use Rattle.esi_links.specs.Counts.{NoneFell, HasLinkCause, HasLinkCauseAt, SameCounts};
ghost use Rattle.esi_links.specs.LinkLog.{LogGrows, IsNext, is_sized};

use crate::LinkStop;
use esi_base::{NoMemory, Octets};
use std::alloc::Global;

/// What links tell a program.
#[derive(Debug, Drop)]
pub enum Event {
    /// A connection opened. Those at a listener are numbered from 0 without gaps.
    Opened { conn: u32 },
    /// A connection brought octets, 1 to `LONGEST_BYTES` of them.
    Bytes { conn: u32, octets: Octets },
    /// A connection may take octets again.
    Writable { conn: u32 },
    /// A connection is gone, by its end or by a failure of its own.
    Closed { conn: u32 },
    /// Nothing came.
    Idle,
}

impl Event {
    /// A copy of the event.
    pub fn copied(&self, alloc: Global) -> Result<Event, NoMemory>
        ensures { IfOk result (λ event. event ≡ self.now) }
    {
        match self {
            Event::Opened { conn } => Ok(Event::Opened { conn: *conn }),
            Event::Bytes { conn, octets } => Ok(Event::Bytes {
                conn: *conn,
                octets: Octets::from_slice(alloc, octets.as_slice())?,
            }),
            Event::Writable { conn } => Ok(Event::Writable { conn: *conn }),
            Event::Closed { conn } => Ok(Event::Closed { conn: *conn }),
            Event::Idle => Ok(Event::Idle),
        }
    }
}

/// What stands in the log of links.
#[derive(Debug, Drop)]
pub enum Entry {
    /// An event was told.
    Happened(Event),
    /// Octets were offered to a connection: how many, and those that it took.
    Sent {
        conn: u32,
        offered: usize,
        taken: Octets,
    },
    /// A connection was dropped.
    Dropped {
        conn: u32,
    },
}

/// Links: a listener and its connections, or one connection to a server. They tell, where they can,
/// their log, which is all events, sends and drops, and they count the failures to listen or to
/// connect and those to tell an event. Only a fault raises a count, none ever falls, and where one
/// stands at its last value, 2^64 - 1, a failure counts as a rise. One counter may serve for several
/// counts.
pub trait Links {
    /// The log, if it is told.
    ghost log: { Self → Option (List LogEntry) };

    /// Whether the links are started. New ones are not.
    ghost started: { Self → Bool };

    /// How many times it failed to listen at an address or to connect to it.
    ghost open_faults: { Self → List ℕ → ℕ };

    /// How many times it failed to tell an event.
    ghost next_faults: { Self → ℕ };

    /// Starts to listen at an address.
    fn listen(&mut self, address: &str) -> Result<(), LinkStop>
        requires { started self.old ≡ false }
        ensures starts { OnOk result (started self.new ≡ true) }
        ensures refused { OnErr result (started self.new ≡ false) }
        ensures log { log self.new ≡ log self.old }
        ensures cause { HasLinkCauseAt (open_faults self.old) (open_faults self.new) address.now result }
        ensures nexts { next_faults self.old ≤ next_faults self.new }
        ensures quiet_opens { OnOk result (SameCounts (open_faults self.old) (open_faults self.new)) }
        ensures quiet_nexts { OnOk result (next_faults self.new ≡ next_faults self.old) }
        ensures no_memory_opens { IsErrOf result LinkStop.NoMemory
            → SameCounts (open_faults self.old) (open_faults self.new) }
        ensures no_memory_nexts { IsErrOf result LinkStop.NoMemory → next_faults self.new ≡ next_faults self.old };

    /// Connects to a server at an address, and gives the connection's number.
    fn connect(&mut self, address: &str) -> Result<u32, LinkStop>
        requires { started self.old ≡ false }
        ensures starts { OnOk result (started self.new ≡ true) }
        ensures refused { OnErr result (started self.new ≡ false) }
        ensures log { log self.new ≡ log self.old }
        ensures cause { HasLinkCauseAt (open_faults self.old) (open_faults self.new) address.now result }
        ensures nexts { next_faults self.old ≤ next_faults self.new }
        ensures quiet_opens { OnOk result (SameCounts (open_faults self.old) (open_faults self.new)) }
        ensures quiet_nexts { OnOk result (next_faults self.new ≡ next_faults self.old) }
        ensures no_memory_opens { IsErrOf result LinkStop.NoMemory
            → SameCounts (open_faults self.old) (open_faults self.new) }
        ensures no_memory_nexts { IsErrOf result LinkStop.NoMemory → next_faults self.new ≡ next_faults self.old };

    /// Translates the next event, `Idle` where none came. A failure of one connection is no fault, but
    /// the event `Closed`.
    fn next(&mut self) -> Result<Event, LinkStop>
        requires { started self.old ≡ true }
        ensures started { started self.new ≡ true }
        ensures sized { IfOk result (λ event. IsTrue (is_sized event)) }
        ensures numbered { IfOk result (λ event. IfSome (log self.old) (IsNext event)) }
        ensures log { IfOk result (λ event. LogGrows (log self.old) (log self.new) (Entry.Happened event)) }
        ensures refused { OnErr result (log self.new ≡ log self.old) }
        ensures cause { HasLinkCause (next_faults self.old) (next_faults self.new) result }
        ensures opens { NoneFell (open_faults self.old) (open_faults self.new) }
        ensures quiet_opens { OnOk result (SameCounts (open_faults self.old) (open_faults self.new)) }
        ensures quiet_nexts { OnOk result (next_faults self.new ≡ next_faults self.old) }
        ensures no_memory_opens { IsErrOf result LinkStop.NoMemory
            → SameCounts (open_faults self.old) (open_faults self.new) }
        ensures no_memory_nexts { IsErrOf result LinkStop.NoMemory → next_faults self.new ≡ next_faults self.old };

    /// Offers octets to a connection. Ok(n): it took the first n of them, and no others; 0 means
    /// that it takes none now or is not open. Where it runs out of memory the links
    /// stay as they were.
    fn send(&mut self, conn: u32, octets: &[u8]) -> Result<usize, NoMemory>
        requires { started self.old ≡ true }
        ensures started { started self.new ≡ true }
        ensures bound { IfOk result (λ n. n ≤ length octets.now) }
        ensures log { IfOk result (λ n. LogGrows (log self.old) (log self.new) (Entry.Sent conn (length octets.now) (take n octets.now))) }
        ensures refused { OnErr result (log self.new ≡ log self.old) }
        ensures opens { NoneFell (open_faults self.old) (open_faults self.new) }
        ensures nexts { next_faults self.old ≤ next_faults self.new }
        ensures quiet_opens { OnOk result (SameCounts (open_faults self.old) (open_faults self.new)) }
        ensures quiet_nexts { OnOk result (next_faults self.new ≡ next_faults self.old) }
        ensures no_memory_opens { OnErr result (SameCounts (open_faults self.old) (open_faults self.new)) }
        ensures no_memory_nexts { OnErr result (next_faults self.new ≡ next_faults self.old) };

    /// Drops a connection. Where it runs out of memory the links
    /// stay as they were.
    fn drop_conn(&mut self, conn: u32) -> Result<(), NoMemory>
        requires { started self.old ≡ true }
        ensures started { started self.new ≡ true }
        ensures log { OnOk result (LogGrows (log self.old) (log self.new) (Entry.Dropped conn)) }
        ensures refused { OnErr result (log self.new ≡ log self.old) }
        ensures opens { NoneFell (open_faults self.old) (open_faults self.new) }
        ensures nexts { next_faults self.old ≤ next_faults self.new }
        ensures quiet_opens { OnOk result (SameCounts (open_faults self.old) (open_faults self.new)) }
        ensures quiet_nexts { OnOk result (next_faults self.new ≡ next_faults self.old) }
        ensures no_memory_opens { OnErr result (SameCounts (open_faults self.old) (open_faults self.new)) }
        ensures no_memory_nexts { OnErr result (next_faults self.new ≡ next_faults self.old) };

    /// Links that are not started tell, where they tell a log, an empty one.
    ghost unstarted: { (links : Self) → started links ≡ false → IfSome (log links) (λ entries. entries ≡ []) };
}
