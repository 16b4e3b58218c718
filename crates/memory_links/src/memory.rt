//! Links in memory that play a log.
ghost use Rattle.std.specs.Prelude.{◌≡◌, ℕ, ◌+◌, ◌^◌, ◌<◌, ◌≤◌, ◌++◌, ◌∷◌, [], length, take, Some, None, true, false, IsTrue, if◌then◌else◌, Ok, Err, IfOk, OnOk, OnErr, IfSome, IsErrOf};
ghost use Rattle.std.specs.List.{list_all};
ghost use Rattle.esi_links.specs.LinkLog.{LogGrows, IsNext, is_sized, is_fresh, opened_count};
ghost use Rattle.esi_links.specs.Counts.{NoneFell, HasLinkCause, HasLinkCauseAt, SameCounts};
ghost use Rattle.esi_links.specs.FailingCalls.{is_due};
ghost use Rattle.esi_links.specs.declared.stop.LinkStop.TheVariants.{Fault as fault};
ghost use Rattle.memory_links.specs.Conns.{sent_at};
ghost use Rattle.memory_links.specs.Plays.{is_sized_step, openings, sent_to};

use crate::player::Player;
use esi_base::{List, NoMemory};
use esi_links::{Entry, Event, LinkStop, Links};
use link_log::{Log, LogStep};
use std::alloc::Global;

/// Links in memory that play a log. `next` tells its events in order, and then `Idle`; at `Fail` it
/// answers `Fault`. A `room` takes effect for the sends behind the event that follows it. They tell
/// their own log. One counter serves for all counts of faults.
#[derive(Drop)]
pub struct MemoryLinks {
    pub(crate) player: Player,
    ghost numbered: { player.opened ≡ opened_count player.log },
    ghost few: { player.opened + openings player.steps < 2 ^ 32 },
    ghost places: { player.opened + openings player.steps < length player.conns },
    ghost sized: { IsTrue (list_all is_sized_step player.steps) },
    ghost fresh: { IsTrue (is_fresh player.started player.log) },
    ghost sent: { (conn : ℕ) → sent_at player.conns conn ≡ sent_to conn player.log },
}

impl MemoryLinks {
    ghost use Rattle.memory_links.specs.Told.{play};
    ghost use Rattle.memory_links.specs.Plays.{new_play, new_conns, after_add, with_failing, with_piece, event_count};

    /// Links that are not started and are to play a log. Each `Bytes` in it has 1 to `LONGEST_BYTES`
    /// octets, and fewer than 2^32 of its steps are `Opened`. Memory is taken for the connections.
    pub fn from_log(alloc: Global, log: Log) -> Result<MemoryLinks, NoMemory>
        requires sized { IsTrue (list_all is_sized_step log.steps) }
        requires few { openings log.steps < 2 ^ 32 }
        ensures { IfOk result (λ links. play links ≡ new_play (new_conns log.steps) log.steps) }
    {
        let player = Player::new(alloc, log.steps)?;
        Ok(MemoryLinks { player })
    }

    /// Adds a step behind the last one. Where it runs out of memory the links stay as they were.
    pub fn add(&mut self, step: LogStep) -> Result<(), NoMemory>
        requires sized { IsTrue (is_sized_step step) }
        requires few { (play self.old).opened + openings ((play self.old).steps ++ step ∷ []) < 2 ^ 32 }
        ensures added { OnOk result (play self.new ≡ after_add step (play self.old)) }
        ensures kept { OnErr result (play self.new ≡ play self.old) }
    {
        self.player.add(step)
    }

    /// The octets that the sends to a connection took, none for a connection that was never opened. It
    /// takes no memory.
    pub fn sent_to(&self, conn: u32) -> &[u8]
        ensures { result.now ≡ sent_to conn (play self.now).log }
    {
        self.player.sent(conn)
    }

    /// How many events are left: all steps that are to come but `Room`. It takes no memory.
    pub fn unread(&self) -> usize
        ensures { result ≡ event_count (play self.now).steps }
    {
        self.player.unread()
    }

    /// Chooses the calls that are to fail, in place of those that were chosen before. The calls of
    /// `listen`, `connect` and `next` are counted together, from 0, since the links were made. It takes
    /// no memory.
    pub fn set_failing(&mut self, calls: List<u64>)
        ensures { play self.new ≡ with_failing calls (play self.old) }
    {
        self.player.set_failing(calls);
    }

    /// Sets how many octets one send takes at most, at least 1. It takes no memory.
    pub fn set_piece(&mut self, piece: usize)
        requires { 1 ≤ piece }
        ensures { play self.new ≡ with_piece piece (play self.old) }
    {
        self.player.set_piece(piece);
    }
}

impl Links for MemoryLinks {
    ghost use Rattle.memory_links.specs.Told.{play, played_log, is_started, open_faults_of, next_faults_of};
    ghost use Rattle.memory_links.specs.Plays.{event_next, after_told, after_failed, after_listen, after_connect, send_takes, after_sent, after_drop};
    ghost use Rattle.esi_links.specs.Fresh.{fresh_log};

    ghost log = { played_log };

    ghost started = { is_started };

    ghost open_faults = { open_faults_of };

    ghost next_faults = { next_faults_of };

    /// It fails exactly where its number was chosen.
    fn listen(&mut self, address: &str) -> Result<(), LinkStop>
        requires { is_started self.old ≡ false }
        ensures starts { OnOk result (is_started self.new ≡ true) }
        ensures refused { OnErr result (is_started self.new ≡ false) }
        ensures log { played_log self.new ≡ played_log self.old }
        ensures cause { HasLinkCauseAt (open_faults_of self.old) (open_faults_of self.new) address.now result }
        ensures nexts { next_faults_of self.old ≤ next_faults_of self.new }
        ensures quiet_opens { OnOk result (SameCounts (open_faults_of self.old) (open_faults_of self.new)) }
        ensures quiet_nexts { OnOk result (next_faults_of self.new ≡ next_faults_of self.old) }
        ensures no_memory_opens { IsErrOf result LinkStop.NoMemory
            → SameCounts (open_faults_of self.old) (open_faults_of self.new) }
        ensures no_memory_nexts { IsErrOf result LinkStop.NoMemory → next_faults_of self.new ≡ next_faults_of self.old }
        ensures answer { result ≡ (if is_due (play self.old).calls then Err fault else Ok tt) }
        ensures state { play self.new ≡ after_listen (play self.old) }
    {
        self.player.listen()
    }

    /// It fails exactly where its number was chosen. The connection has the number 0.
    fn connect(&mut self, address: &str) -> Result<u32, LinkStop>
        requires { is_started self.old ≡ false }
        ensures starts { OnOk result (is_started self.new ≡ true) }
        ensures refused { OnErr result (is_started self.new ≡ false) }
        ensures log { played_log self.new ≡ played_log self.old }
        ensures cause { HasLinkCauseAt (open_faults_of self.old) (open_faults_of self.new) address.now result }
        ensures nexts { next_faults_of self.old ≤ next_faults_of self.new }
        ensures quiet_opens { OnOk result (SameCounts (open_faults_of self.old) (open_faults_of self.new)) }
        ensures quiet_nexts { OnOk result (next_faults_of self.new ≡ next_faults_of self.old) }
        ensures no_memory_opens { IsErrOf result LinkStop.NoMemory
            → SameCounts (open_faults_of self.old) (open_faults_of self.new) }
        ensures no_memory_nexts { IsErrOf result LinkStop.NoMemory → next_faults_of self.new ≡ next_faults_of self.old }
        ensures answer { result ≡ (if is_due (play self.old).calls then Err fault else Ok 0) }
        ensures state { play self.new ≡ after_connect (play self.old) }
    {
        self.player.connect()
    }

    /// It tells the next event, `Idle` where none is left, and fails where its number was chosen or the
    /// next event is `Fail`.
    fn next(&mut self) -> Result<Event, LinkStop>
        requires { is_started self.old ≡ true }
        ensures started { is_started self.new ≡ true }
        ensures sized { IfOk result (λ event. IsTrue (is_sized event)) }
        ensures numbered { IfOk result (λ event. IfSome (played_log self.old) (IsNext event)) }
        ensures log { IfOk result (λ event. LogGrows (played_log self.old) (played_log self.new) (Entry.Happened event)) }
        ensures refused { OnErr result (played_log self.new ≡ played_log self.old) }
        ensures cause { HasLinkCause (next_faults_of self.old) (next_faults_of self.new) result }
        ensures opens { NoneFell (open_faults_of self.old) (open_faults_of self.new) }
        ensures quiet_opens { OnOk result (SameCounts (open_faults_of self.old) (open_faults_of self.new)) }
        ensures quiet_nexts { OnOk result (next_faults_of self.new ≡ next_faults_of self.old) }
        ensures no_memory_opens { IsErrOf result LinkStop.NoMemory
            → SameCounts (open_faults_of self.old) (open_faults_of self.new) }
        ensures no_memory_nexts { IsErrOf result LinkStop.NoMemory → next_faults_of self.new ≡ next_faults_of self.old }
        ensures event { IfOk result (λ event. event_next (play self.old) ≡ Some event) }
        ensures due { IsErrOf result LinkStop.Fault → event_next (play self.old) ≡ None }
        ensures faults { event_next (play self.old) ≡ None → result ≡ Err fault }
        ensures told { IfOk result (λ event. play self.new ≡ after_told event (play self.old)) }
        ensures failed { IsErrOf result LinkStop.Fault → play self.new ≡ after_failed (play self.old) }
        ensures kept { IsErrOf result LinkStop.NoMemory → play self.new ≡ play self.old }
    {
        self.player.next()
    }

    /// It takes the least of the piece, of the connection's room and of what is offered, and nothing where
    /// the connection is not open.
    fn send(&mut self, conn: u32, octets: &[u8]) -> Result<usize, NoMemory>
        requires { is_started self.old ≡ true }
        ensures started { is_started self.new ≡ true }
        ensures bound { IfOk result (λ n. n ≤ length octets.now) }
        ensures log { IfOk result (λ n. LogGrows (played_log self.old) (played_log self.new) (Entry.Sent conn (length octets.now) (take n octets.now))) }
        ensures refused { OnErr result (played_log self.new ≡ played_log self.old) }
        ensures opens { NoneFell (open_faults_of self.old) (open_faults_of self.new) }
        ensures nexts { next_faults_of self.old ≤ next_faults_of self.new }
        ensures quiet_opens { OnOk result (SameCounts (open_faults_of self.old) (open_faults_of self.new)) }
        ensures quiet_nexts { OnOk result (next_faults_of self.new ≡ next_faults_of self.old) }
        ensures no_memory_opens { OnErr result (SameCounts (open_faults_of self.old) (open_faults_of self.new)) }
        ensures no_memory_nexts { OnErr result (next_faults_of self.new ≡ next_faults_of self.old) }
        ensures count { IfOk result (λ n. n ≡ send_takes (play self.old) conn (length octets.now)) }
        ensures state { IfOk result (λ n. play self.new ≡ after_sent conn (length octets.now) (take n octets.now) (play self.old)) }
        ensures kept { OnErr result (play self.new ≡ play self.old) }
    {
        self.player.send(conn, octets)
    }

    fn drop_conn(&mut self, conn: u32) -> Result<(), NoMemory>
        requires { is_started self.old ≡ true }
        ensures started { is_started self.new ≡ true }
        ensures log { OnOk result (LogGrows (played_log self.old) (played_log self.new) (Entry.Dropped conn)) }
        ensures refused { OnErr result (played_log self.new ≡ played_log self.old) }
        ensures opens { NoneFell (open_faults_of self.old) (open_faults_of self.new) }
        ensures nexts { next_faults_of self.old ≤ next_faults_of self.new }
        ensures quiet_opens { OnOk result (SameCounts (open_faults_of self.old) (open_faults_of self.new)) }
        ensures quiet_nexts { OnOk result (next_faults_of self.new ≡ next_faults_of self.old) }
        ensures no_memory_opens { OnErr result (SameCounts (open_faults_of self.old) (open_faults_of self.new)) }
        ensures no_memory_nexts { OnErr result (next_faults_of self.new ≡ next_faults_of self.old) }
        ensures state { OnOk result (play self.new ≡ after_drop conn (play self.old)) }
        ensures kept { OnErr result (play self.new ≡ play self.old) }
    {
        self.player.drop_conn(conn)
    }

    ghost unstarted = { λ links off. fresh_log links.player.started links.player.log links.fresh off };
}
