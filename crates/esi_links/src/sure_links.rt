//! Links in memory that never fail.
ghost use Rattle.std.specs.Prelude.{◌≡◌, ◌<◌, ◌≤◌, [], List as Listed, Some, IsTrue, true, false, length, take, drop, IfOk, OnOk, OnErr, IfSome, IsErrOf, Ok, ℕ};
ghost use Rattle.std.specs.List.{list_all};
ghost use Rattle.esi_links.specs.LinkLog.{LogGrows, IsNext, is_sized, opened_count, are_numbered, next_event, is_fresh};
ghost use Rattle.esi_links.specs.Counts.{NoneFell, HasLinkCause, HasLinkCauseAt, SameCounts};

use crate::{Entry, Event, LinkStop, Links};
use esi_base::{List, NoMemory, Octets};
use std::alloc::Global;

/// Links in memory that never fail, so their counts of faults are 0. They tell chosen events in
/// order, and then `Idle`; every send is taken whole. They tell their log.
#[derive(Drop)]
pub struct SureLinks {
    alloc: Global,
    events: List<Event>,
    given: usize,
    log: List<Entry>,
    started: bool,
    ghost sized: { IsTrue (list_all is_sized (drop given events)) },
    ghost numbered: { IsTrue (are_numbered (opened_count log) (drop given events)) },
    ghost fresh: { IsTrue (is_fresh started log) },
}

impl SureLinks {
    ghost use Rattle.esi_links.specs.SureLog.{events_left, sure_log, sure_started};

    /// Links that are not started, with the events that they are to tell. Each `Bytes` among them
    /// has 1 to `LONGEST_BYTES` octets, and the k-th `Opened`, from 0, has the number k. It takes no memory.
    pub fn new(alloc: Global, events: List<Event>) -> SureLinks
        requires sized { IsTrue (list_all is_sized events) }
        requires numbered { IsTrue (are_numbered 0 events) }
        ensures events { events_left result ≡ events }
        ensures log { sure_log result ≡ [] }
        ensures started { sure_started result ≡ false }
    {
        SureLinks {
            alloc,
            events,
            given: 0,
            log: List::new(alloc),
            started: false,
        }
    }
}

impl Links for SureLinks {
    ghost use Rattle.esi_links.specs.SureLog.{events_left, sure_log, sure_log_told, sure_started, no_open_faults, no_next_faults};
    ghost use Rattle.esi_links.specs.Fresh.{fresh_log};

    ghost log = { sure_log_told };

    ghost started = { sure_started };

    ghost open_faults = { no_open_faults };

    ghost next_faults = { no_next_faults };

    /// It never fails.
    fn listen(&mut self, address: &str) -> Result<(), LinkStop>
        requires { sure_started self.old ≡ false }
        ensures starts { OnOk result (sure_started self.new ≡ true) }
        ensures refused { OnErr result (sure_started self.new ≡ false) }
        ensures log { sure_log_told self.new ≡ sure_log_told self.old }
        ensures cause { HasLinkCauseAt (no_open_faults self.old) (no_open_faults self.new) address.now result }
        ensures nexts { no_next_faults self.old ≤ no_next_faults self.new }
        ensures quiet_opens { OnOk result (SameCounts (no_open_faults self.old) (no_open_faults self.new)) }
        ensures quiet_nexts { OnOk result (no_next_faults self.new ≡ no_next_faults self.old) }
        ensures no_memory_opens { IsErrOf result LinkStop.NoMemory
            → SameCounts (no_open_faults self.old) (no_open_faults self.new) }
        ensures no_memory_nexts { IsErrOf result LinkStop.NoMemory → no_next_faults self.new ≡ no_next_faults self.old }
        ensures answer { result ≡ Ok tt }
        ensures events { events_left self.new ≡ events_left self.old }
    {
        self.started = true;
        Ok(())
    }

    /// It never fails. The connection has the number 0.
    fn connect(&mut self, address: &str) -> Result<u32, LinkStop>
        requires { sure_started self.old ≡ false }
        ensures starts { OnOk result (sure_started self.new ≡ true) }
        ensures refused { OnErr result (sure_started self.new ≡ false) }
        ensures log { sure_log_told self.new ≡ sure_log_told self.old }
        ensures cause { HasLinkCauseAt (no_open_faults self.old) (no_open_faults self.new) address.now result }
        ensures nexts { no_next_faults self.old ≤ no_next_faults self.new }
        ensures quiet_opens { OnOk result (SameCounts (no_open_faults self.old) (no_open_faults self.new)) }
        ensures quiet_nexts { OnOk result (no_next_faults self.new ≡ no_next_faults self.old) }
        ensures no_memory_opens { IsErrOf result LinkStop.NoMemory
            → SameCounts (no_open_faults self.old) (no_open_faults self.new) }
        ensures no_memory_nexts { IsErrOf result LinkStop.NoMemory → no_next_faults self.new ≡ no_next_faults self.old }
        ensures answer { result ≡ Ok 0 }
        ensures events { events_left self.new ≡ events_left self.old }
    {
        self.started = true;
        Ok(0)
    }

    /// It tells the first event that is left, `Idle` where none is, and fails only when it runs
    /// out of memory.
    fn next(&mut self) -> Result<Event, LinkStop>
        requires { sure_started self.old ≡ true }
        ensures started { sure_started self.new ≡ true }
        ensures sized { IfOk result (λ event. IsTrue (is_sized event)) }
        ensures numbered { IfOk result (λ event. IfSome (sure_log_told self.old) (IsNext event)) }
        ensures log { IfOk result (λ event. LogGrows (sure_log_told self.old) (sure_log_told self.new) (Entry.Happened event)) }
        ensures refused { OnErr result (sure_log_told self.new ≡ sure_log_told self.old) }
        ensures cause { HasLinkCause (no_next_faults self.old) (no_next_faults self.new) result }
        ensures opens { NoneFell (no_open_faults self.old) (no_open_faults self.new) }
        ensures quiet_opens { OnOk result (SameCounts (no_open_faults self.old) (no_open_faults self.new)) }
        ensures quiet_nexts { OnOk result (no_next_faults self.new ≡ no_next_faults self.old) }
        ensures no_memory_opens { IsErrOf result LinkStop.NoMemory
            → SameCounts (no_open_faults self.old) (no_open_faults self.new) }
        ensures no_memory_nexts { IsErrOf result LinkStop.NoMemory → no_next_faults self.new ≡ no_next_faults self.old }
        ensures sure { IsErrOf result LinkStop.Fault → ⊥ }
        ensures first { IfOk result (λ event. event ≡ next_event (events_left self.old)) }
        ensures left { OnOk result (events_left self.new ≡ drop 1 (events_left self.old)) }
        ensures kept { OnErr result (events_left self.new ≡ events_left self.old) }
    {
        let event = copy_next(self.alloc, &self.events, self.given)?;
        self.log.add(Entry::Happened(event))?;
        Ok(take_event(&mut self.events, &mut self.given))
    }

    /// It takes all octets.
    fn send(&mut self, conn: u32, octets: &[u8]) -> Result<usize, NoMemory>
        requires { sure_started self.old ≡ true }
        ensures started { sure_started self.new ≡ true }
        ensures bound { IfOk result (λ n. n ≤ length octets.now) }
        ensures log { IfOk result (λ n. LogGrows (sure_log_told self.old) (sure_log_told self.new) (Entry.Sent conn (length octets.now) (take n octets.now))) }
        ensures refused { OnErr result (sure_log_told self.new ≡ sure_log_told self.old) }
        ensures opens { NoneFell (no_open_faults self.old) (no_open_faults self.new) }
        ensures nexts { no_next_faults self.old ≤ no_next_faults self.new }
        ensures quiet_opens { OnOk result (SameCounts (no_open_faults self.old) (no_open_faults self.new)) }
        ensures quiet_nexts { OnOk result (no_next_faults self.new ≡ no_next_faults self.old) }
        ensures no_memory_opens { OnErr result (SameCounts (no_open_faults self.old) (no_open_faults self.new)) }
        ensures no_memory_nexts { OnErr result (no_next_faults self.new ≡ no_next_faults self.old) }
        ensures whole { IfOk result (λ n. n ≡ length octets.now) }
        ensures events { events_left self.new ≡ events_left self.old }
    {
        let taken = Octets::from_slice(self.alloc, octets)?;
        let offered = octets.len();
        let entry = Entry::Sent {
            conn,
            offered,
            taken,
        };
        self.log.add(entry)?;
        Ok(offered)
    }

    fn drop_conn(&mut self, conn: u32) -> Result<(), NoMemory>
        requires { sure_started self.old ≡ true }
        ensures started { sure_started self.new ≡ true }
        ensures log { OnOk result (LogGrows (sure_log_told self.old) (sure_log_told self.new) (Entry.Dropped conn)) }
        ensures refused { OnErr result (sure_log_told self.new ≡ sure_log_told self.old) }
        ensures opens { NoneFell (no_open_faults self.old) (no_open_faults self.new) }
        ensures nexts { no_next_faults self.old ≤ no_next_faults self.new }
        ensures quiet_opens { OnOk result (SameCounts (no_open_faults self.old) (no_open_faults self.new)) }
        ensures quiet_nexts { OnOk result (no_next_faults self.new ≡ no_next_faults self.old) }
        ensures no_memory_opens { OnErr result (SameCounts (no_open_faults self.old) (no_open_faults self.new)) }
        ensures no_memory_nexts { OnErr result (no_next_faults self.new ≡ no_next_faults self.old) }
        ensures events { events_left self.new ≡ events_left self.old }
    {
        self.log.add(Entry::Dropped { conn })?;
        Ok(())
    }

    ghost unstarted = { λ links off. fresh_log links.started links.log links.fresh off };
}

/// The counts of faults of such links are 0, at every address.
pub fn sure_links_law(links: &SureLinks)
    ensures opens { (address : Listed ℕ) → ⟦<SureLinks as Links>⟧.open_faults links.now address ≡ 0 }
    ensures nexts { ⟦<SureLinks as Links>⟧.next_faults links.now ≡ 0 }
{}

/// A copy of the event at an index, `Idle` where there is none.
fn copy_next(alloc: Global, events: &List<Event>, given: usize) -> Result<Event, NoMemory>
    ensures { IfOk result (λ event. event ≡ next_event (drop given events.now)) }
{
    match events.get(given) {
        Some(event) => event.copied(alloc),
        None => Ok(Event::Idle),
    }
}

/// Takes the event at an index, `Idle` where there is none, and goes on to the next index.
fn take_event(events: &mut List<Event>, given: &mut usize) -> Event
    ensures first { result ≡ next_event (drop given.old events.old) }
    ensures left { drop given.new events.new ≡ drop 1 (drop given.old events.old) }
{
    if *given < events.len() {
        let event = events.set(*given, Event::Idle);
        *given += 1;
        event
    } else {
        Event::Idle
    }
}
