//! What a step of a log tells.
ghost use Rattle.std.specs.Prelude.{◌≡◌, ◌++◌, slice_get, None, Ok, OnOk, OnErr, IfOk};
ghost use Rattle.std.specs.Option.{option_copied};
ghost use Rattle.memory_links.specs.Plays.{step_event, from_event, event_count, is_event as is_event_of, entries_of};

use esi_base::{List, NoMemory, Octets};
use esi_links::{Entry, Event};
use link_log::LogStep;
use std::alloc::Global;

/// Whether a step is an event: all are but `Room`.
fn is_event(step: &LogStep) -> bool
    ensures { result ≡ is_event_of step.now }
{
    match step {
        LogStep::Room { .. } => false,
        LogStep::Opened
        | LogStep::Bytes { .. }
        | LogStep::Writable { .. }
        | LogStep::Closed { .. }
        | LogStep::Idle
        | LogStep::Fail => true,
    }
}

/// How many events there are.
#[tactic(auto, using(std::proofs::lemmas::List::Sums::count_by_more_yes, std::proofs::lemmas::List::Sums::count_by_more_no))]
pub(crate) fn count_events(steps: &[LogStep]) -> usize
    ensures { result ≡ event_count steps.now }
{
    let mut count = 0;
    for step in steps {
        if is_event(step) {
            count += 1;
        }
    }
    count
}

/// The next event, None where there is none.
pub(crate) fn next_event(steps: &[LogStep]) -> Option<&LogStep>
    ensures { option_copied result ≡ slice_get (from_event steps.now) 0 }
{
    for step in steps {
        if is_event(step) {
            return Some(step);
        }
    }
    None
}

/// The event that a step tells where so many connections opened before; none at `Fail`.
pub(crate) fn tell(step: Option<LogStep>, number: u32) -> Option<Event>
    ensures { result ≡ step_event number step }
{
    match step {
        Some(LogStep::Opened) => Some(Event::Opened { conn: number }),
        Some(LogStep::Bytes { conn, octets }) => Some(Event::Bytes { conn, octets }),
        Some(LogStep::Writable { conn }) => Some(Event::Writable { conn }),
        Some(LogStep::Closed { conn }) => Some(Event::Closed { conn }),
        Some(LogStep::Fail) => None,
        Some(LogStep::Idle | LogStep::Room { .. }) | None => Some(Event::Idle),
    }
}

/// A copy of the event that a step tells. It takes no memory where the step tells none.
fn copy_event(alloc: Global, step: Option<&LogStep>, number: u32) -> Result<Option<Event>, NoMemory>
    ensures copied { IfOk result (λ event. event ≡ step_event number (option_copied step.entry)) }
    ensures fails { step_event number (option_copied step.entry) ≡ None → result ≡ Ok None }
{
    match step {
        Some(LogStep::Opened) => Ok(Some(Event::Opened { conn: number })),
        Some(LogStep::Bytes { conn, octets }) => {
            let octets = Octets::from_slice(alloc, octets.as_slice())?;
            Ok(Some(Event::Bytes {
                conn: *conn,
                octets,
            }))
        }
        Some(LogStep::Writable { conn }) => Ok(Some(Event::Writable { conn: *conn })),
        Some(LogStep::Closed { conn }) => Ok(Some(Event::Closed { conn: *conn })),
        Some(LogStep::Fail) => Ok(None),
        Some(LogStep::Idle | LogStep::Room { .. }) | None => Ok(Some(Event::Idle)),
    }
}

/// Adds the event that a step tells to a log. Where it runs out of memory the log stays. It takes no
/// memory where the step tells none.
pub(crate) fn log_event(
    alloc: Global,
    log: &mut List<Entry>,
    step: Option<&LogStep>,
    number: u32,
) -> Result<(), NoMemory>
    ensures told { OnOk result (log.new ≡ log.old ++ entries_of (step_event number (option_copied step.entry))) }
    ensures kept { OnErr result (log.new ≡ log.old) }
    ensures fails { step_event number (option_copied step.entry) ≡ None → result ≡ Ok tt }
{
    match copy_event(alloc, step, number)? {
        Some(event) => log.add(Entry::Happened(event)),
        None => Ok(()),
    }
}
