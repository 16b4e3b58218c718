//! Random calls of a ledger, each compared with the plain sums over all calls so far.

use crate::history::{Fault, History};
use case_words::Numbers;
use h2_flow::{FlowFault, Ledger};
use std::alloc::{AllocError, Global};

/// The streams of random calls are below this number.
const STREAMS: u32 = 7;

/// A number of octets: often a small one, sometimes one near the greatest window.
fn octets_of(numbers: &mut Numbers) -> u32 {
    let kind = numbers.next();
    let number = numbers.next();
    match kind % 8 {
        0 => 0,
        1 => 65_535,
        2 => 2_147_483_647 - number % 70_000,
        3 => number % 2_147_483_648,
        4 => number,
        _ => number % 9_000,
    }
}

/// What was counted of random calls.
#[derive(Drop)]
struct Tally {
    faults: u32,
    negative: u32,
    differing: u32,
}

/// Makes random calls of a new ledger, and reports how many brought a fault, after how many some window
/// to send was negative, and after how many something differed from the sums.
pub fn compared(alloc: Global, seed: u32, calls: u32) -> Result<String, AllocError> {
    let Ok(mut ledger) = Ledger::new(alloc) else {
        return Err(AllocError);
    };
    let mut history = History::new(alloc);
    let mut numbers = Numbers::new(seed);
    let mut tally = Tally {
        faults: 0,
        negative: 0,
        differing: 0,
    };
    for _call in 0..calls {
        let agrees = one_call(&mut ledger, &mut history, &mut numbers, &mut tally)?;
        if !agrees || !are_same(&ledger, &history) {
            tally.differing = tally.differing.saturating_add(1);
        }
        if is_some_negative(&history) {
            tally.negative = tally.negative.saturating_add(1);
        }
    }
    let Tally {
        faults,
        negative,
        differing,
    } = tally;
    format!(in alloc;
        "{faults} faults, {negative} with a window below 0, {differing} unlike the sums"
    )
}

/// Makes a random call of both; whether they answered the same.
fn one_call(
    ledger: &mut Ledger,
    history: &mut History,
    numbers: &mut Numbers,
    tally: &mut Tally,
) -> Result<bool, AllocError> {
    let kind = numbers.next() % 16;
    let stream = numbers.next() % STREAMS;
    let octets = octets_of(numbers);
    match kind {
        0 | 1 => {
            ledger.open_stream(stream);
            history.open(stream)?;
            Ok(true)
        }
        2 => {
            ledger.close_stream(stream);
            history.close(stream)?;
            Ok(true)
        }
        3 | 4 | 5 => {
            let found = fault_in(ledger.received(stream, octets));
            let due = history.received(stream, octets)?;
            Ok(tally.noted(found, due))
        }
        6 | 7 => {
            let found = ledger.resolve(octets);
            Ok(i64::from(found) == history.resolve(octets)?)
        }
        8 | 9 | 10 | 11 => send_some(ledger, history, stream, octets),
        12 | 13 => {
            let found = fault_in(ledger.update(stream, octets));
            let due = history.update(stream, octets)?;
            Ok(tally.noted(found, due))
        }
        _ => {
            let found = fault_in(ledger.initial(octets));
            let due = history.initial(octets, STREAMS)?;
            Ok(tally.noted(found, due))
        }
    }
}

impl Tally {
    /// Counts the fault that the ledger reported; whether it is the one that was due.
    fn noted(&mut self, found: Fault, due: Fault) -> bool {
        if found != Fault::No {
            self.faults = self.faults.saturating_add(1);
        }
        found == due
    }
}

/// Sends as many of the octets as may be sent; whether both say as many.
fn send_some(
    ledger: &mut Ledger,
    history: &mut History,
    stream: u32,
    octets: u32,
) -> Result<bool, AllocError> {
    let most = ledger.may_send(stream);
    let same = i64::from(most) == history.may_send(stream);
    let piece = octets.min(most);
    ledger.sent(stream, piece);
    history.sent(stream, piece)?;
    Ok(same)
}

/// The fault in a ledger's answer.
fn fault_in(answer: Result<(), FlowFault>) -> Fault {
    match answer {
        Ok(()) => Fault::No,
        Err(FlowFault { whole: true }) => Fault::Connection,
        Err(FlowFault { whole: false }) => Fault::Stream,
    }
}

/// Whether a ledger reports of all streams and of the connection what the sums say.
fn are_same(ledger: &Ledger, history: &History) -> bool {
    let mut same = true;
    for stream in 0..STREAMS {
        let open = ledger.is_open(stream) == history.is_open(stream);
        let send = ledger.send_window(stream) == history.send_window(stream);
        let receive = i64::from(ledger.receive_window(stream)) == history.receive_window(stream);
        let most = i64::from(ledger.may_send(stream)) == history.may_send(stream);
        same = same && open && send && receive && most;
    }
    same
}

/// Whether some stream's window to send is negative.
fn is_some_negative(history: &History) -> bool {
    let mut negative = false;
    for stream in 0..STREAMS {
        negative = negative || history.send_window(stream) < 0;
    }
    negative
}
