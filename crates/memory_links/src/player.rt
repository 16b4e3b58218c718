//! The playing of a log, without the facts that hold of all that was played.
ghost use Rattle.std.specs.Prelude.{◌≡◌, ◌++◌, ◌<◌, ◌≤◌, ◌+◌, ◌^◌, [], take, length, Option, Some, None, true, false, if◌then◌else◌, IfOk, OnOk, OnErr, IsErrOf, Ok, Err};
ghost use Rattle.esi_links.specs.FailingCalls.{is_due, after_fault};
ghost use Rattle.esi_links.specs.Counts.{CountRose};
ghost use Rattle.esi_links.specs.declared.stop.LinkStop.TheVariants.{Fault as fault};
ghost use Rattle.esi_links.specs.LinkLog.{opening};
ghost use Rattle.memory_links.specs.Plays.{new_play, new_conns, places, from_event, after_rooms, after_event, event_next, after_told, after_failed, after_listen, after_connect, send_takes, after_sent, after_drop, after_add, event_count, with_failing, with_piece, openings};
ghost use Rattle.memory_links.specs.Conns.{sent_at};

use crate::conn::{Conn, give, open_conn, set_room, shut_conn, taken_of};
use crate::step::{count_events, log_event, next_event, tell};
use crate::step_queue::StepQueue;
use esi_base::{List, NoMemory, Octets};
use esi_links::{Calls, Entry, Event, LinkStop};
use link_log::LogStep;
use std::alloc::Global;
use std::marker::Model;

/// What plays a log. Contracts see what it holds.
#[derive(Drop)]
pub struct Player {
    alloc: Global,
    steps: StepQueue,
    conns: Vec<Conn>,
    log: List<Entry>,
    opened: u32,
    calls: Calls,
    started: bool,
    piece: Option<usize>,
}

impl Model for Player {
    ghost use Rattle.memory_links.specs.Plays.{Play as Held};

    ghost Value = { Held };

    ghost view = { λ p. record { steps = p.steps; conns = p.conns.items; log = p.log; opened = p.opened; calls = p.calls; started = p.started; piece = p.piece } };
}

impl Player {
    /// What is to play these steps.
    pub(crate) fn new(alloc: Global, steps: List<LogStep>) -> Result<Player, NoMemory>
        ensures { IfOk result (λ player. player ≡ new_play (new_conns steps) steps) }
    {
        let conns = make_places(alloc, steps.as_slice())?;
        Ok(Player {
            alloc,
            steps: StepQueue::new(steps),
            conns,
            log: List::new(alloc),
            opened: 0,
            calls: Calls::new(List::new(alloc)),
            started: false,
            piece: None,
        })
    }

    /// Adds a step behind the last one.
    pub(crate) fn add(&mut self, step: LogStep) -> Result<(), NoMemory>
        ensures added { OnOk result (self.new ≡ after_add step self.old) }
        ensures kept { OnErr result (self.new ≡ self.old) }
    {
        let before = self.conns.len();
        add_place(self.alloc, &mut self.conns, &step)?;
        let answer = self.steps.add(step);
        if answer.is_err() {
            self.conns.truncate(before);
        }
        answer
    }

    /// The octets that the sends to a connection took.
    pub(crate) fn sent(&self, conn: u32) -> &[u8]
        ensures { result.now ≡ sent_at self.now.conns conn }
    {
        match self.conns.get(conn as usize) {
            Some(conn) => conn.sent.as_slice(),
            None => &[],
        }
    }

    /// How many events are left.
    pub(crate) fn unread(&self) -> usize
        ensures { result ≡ event_count self.now.steps }
    {
        count_events(self.steps.left())
    }

    /// Chooses the calls that are to fail.
    pub(crate) fn set_failing(&mut self, calls: List<u64>)
        ensures { self.new ≡ with_failing calls self.old }
    {
        self.calls.failing = calls;
    }

    /// Sets how many octets one send takes at most.
    pub(crate) fn set_piece(&mut self, piece: usize)
        ensures { self.new ≡ with_piece piece self.old }
    {
        self.piece = Some(piece);
    }

    /// Starts to listen. It takes no memory.
    pub(crate) fn listen(&mut self) -> Result<(), LinkStop>
        ensures answer { result ≡ (if is_due self.old.calls then Err fault else Ok tt) }
        ensures state { self.new ≡ after_listen self.old }
        ensures later { self.old.calls.faults ≤ self.new.calls.faults }
        ensures rose { IsErrOf result LinkStop.Fault → CountRose self.old.calls.faults self.new.calls.faults }
    {
        if self.calls.is_due() {
            return failed(&mut self.calls);
        }
        self.calls.pass();
        self.started = true;
        Ok(())
    }

    /// Opens connection 0. It takes no memory.
    pub(crate) fn connect(&mut self) -> Result<u32, LinkStop>
        ensures answer { result ≡ (if is_due self.old.calls then Err fault else Ok 0) }
        ensures state { self.new ≡ after_connect self.old }
        ensures later { self.old.calls.faults ≤ self.new.calls.faults }
        ensures rose { IsErrOf result LinkStop.Fault → CountRose self.old.calls.faults self.new.calls.faults }
    {
        if self.calls.is_due() {
            return failed(&mut self.calls);
        }
        self.calls.pass();
        self.started = true;
        open_conn(&mut self.conns, 0);
        Ok(0)
    }

    /// Tells the next event. Where it runs out of memory all stays.
    pub(crate) fn next(&mut self) -> Result<Event, LinkStop>
        requires { self.old.opened + openings self.old.steps < 2 ^ 32 }
        ensures event { IfOk result (λ event. event_next self.old ≡ Some event) }
        ensures due { IsErrOf result LinkStop.Fault → event_next self.old ≡ None }
        ensures faults { event_next self.old ≡ None → result ≡ Err fault }
        ensures told { IfOk result (λ event. self.new ≡ after_told event self.old) }
        ensures failed { IsErrOf result LinkStop.Fault → self.new ≡ after_failed self.old }
        ensures kept { IsErrOf result LinkStop.NoMemory → self.new ≡ self.old }
        ensures later { self.old.calls.faults ≤ self.new.calls.faults }
        ensures rose { IsErrOf result LinkStop.Fault → CountRose self.old.calls.faults self.new.calls.faults }
    {
        if self.calls.is_due() {
            return failed(&mut self.calls);
        }
        log_event(
            self.alloc,
            &mut self.log,
            next_event(self.steps.left()),
            self.opened,
        )?;
        pass_rooms(&mut self.steps, &mut self.conns);
        match tell(self.steps.pop(), self.opened) {
            Some(event) => {
                note_event(&mut self.conns, &mut self.opened, &event);
                self.calls.pass();
                Ok(event)
            }
            None => failed(&mut self.calls),
        }
    }

    /// Takes what it takes of the octets offered to a connection. Where it runs out of memory all stays.
    pub(crate) fn send(&mut self, conn: u32, octets: &[u8]) -> Result<usize, NoMemory>
        ensures bound { IfOk result (λ n. n ≤ length octets.now) }
        ensures count { IfOk result (λ n. n ≡ send_takes self.old conn (length octets.now)) }
        ensures state { IfOk result (λ n. self.new ≡ after_sent conn (length octets.now) (take n octets.now) self.old) }
        ensures kept { OnErr result (self.new ≡ self.old) }
    {
        let count = taken_of(&self.conns, conn, self.piece, octets.len());
        let taken = Octets::from_slice(self.alloc, &octets[..count])?;
        let before = self.log.len();
        let entry = Entry::Sent {
            conn,
            offered: octets.len(),
            taken,
        };
        self.log.add(entry)?;
        if give(&mut self.conns, conn, &octets[..count]).is_err() {
            self.log.truncate(before);
            return Err(NoMemory);
        }
        Ok(count)
    }

    /// Drops a connection. Where it runs out of memory all stays.
    pub(crate) fn drop_conn(&mut self, conn: u32) -> Result<(), NoMemory>
        ensures state { OnOk result (self.new ≡ after_drop conn self.old) }
        ensures kept { OnErr result (self.new ≡ self.old) }
    {
        self.log.add(Entry::Dropped { conn })?;
        shut_conn(&mut self.conns, conn);
        Ok(())
    }
}

/// Counts a call that failed.
fn failed<T>(calls: &mut Calls) -> Result<T, LinkStop>
    ensures answer { result ≡ Err fault }
    ensures counted { calls.new ≡ after_fault calls.old }
    ensures later { calls.old.faults ≤ calls.new.faults }
{
    calls.fail();
    Err(LinkStop::Fault)
}

/// Adds a place for the connection that opens by a step, if one does. Where it runs out of memory all
/// places stay.
fn add_place(alloc: Global, conns: &mut Vec<Conn>, step: &LogStep) -> Result<(), NoMemory>
    ensures added { OnOk result (conns.new.items ≡ conns.old.items ++ places step.now) }
    ensures kept { OnErr result (conns.new.items ≡ conns.old.items) }
{
    match step {
        LogStep::Opened => conns.push(Conn::new(alloc))?,
        LogStep::Bytes { .. }
        | LogStep::Writable { .. }
        | LogStep::Closed { .. }
        | LogStep::Idle
        | LogStep::Fail
        | LogStep::Room { .. } => {}
    }
    Ok(())
}

/// A place for `connect`, and one for each connection that opens by the steps.
fn make_places(alloc: Global, steps: &[LogStep]) -> Result<Vec<Conn>, NoMemory>
    ensures { IfOk result (λ conns. conns.items ≡ new_conns steps.now) }
{
    let mut conns = Vec::new(alloc);
    conns.push(Conn::new(alloc))?;
    for step in steps {
        add_place(alloc, &mut conns, step)?;
    }
    Ok(conns)
}

/// Passes the first step where it is a `room`, which it sets, and answers whether it did.
fn pass_room(steps: &mut StepQueue, conns: &mut [Conn]) -> bool
    ensures steps { from_event steps.new ≡ from_event steps.old }
    ensures conns { after_rooms steps.new conns.new ≡ after_rooms steps.old conns.old }
    ensures shorter { result ≡ true → length steps.new < length steps.old }
    ensures none { result ≡ false → (from_event steps.old ≡ steps.new) × (after_rooms steps.old conns.old ≡ conns.new) }
{
    match steps.left().first() {
        Some(LogStep::Room { conn, octets }) => set_room(conns, *conn, *octets),
        Some(
            LogStep::Opened
            | LogStep::Bytes { .. }
            | LogStep::Writable { .. }
            | LogStep::Closed { .. }
            | LogStep::Idle
            | LogStep::Fail,
        )
        | None => return false,
    }
    let _room = steps.pop();
    true
}

/// Passes the `room` steps before the next event, and sets the rooms.
fn pass_rooms(steps: &mut StepQueue, conns: &mut [Conn])
    ensures steps { steps.new ≡ from_event steps.old }
    ensures conns { conns.new ≡ after_rooms steps.old conns.old }
{
    while pass_room(steps, conns) {}
}

/// Notes an event: how many connections opened, and which are open.
fn note_event(conns: &mut [Conn], opened: &mut u32, event: &Event)
    requires { opened.old + opening event.now < 2 ^ 32 }
    ensures conns { conns.new ≡ after_event event.now conns.old }
    ensures opened { opened.new ≡ opened.old + opening event.now }
{
    match event {
        Event::Opened { conn } => {
            open_conn(conns, *conn);
            *opened += 1;
        }
        Event::Closed { conn } => shut_conn(conns, *conn),
        Event::Bytes { .. } | Event::Writable { .. } | Event::Idle => {}
    }
}
