//! A line of the table: a call of the ledger, or random calls of a new one.

use crate::random;
use h2_flow::{FlowFault, Ledger};
use std::alloc::{AllocError, Global};

/// A call, with its numbers in the order in which the ledger takes them.
#[derive(Clone, Copy)]
pub enum Call {
    /// `open STREAM`
    Open(u32),
    /// `open_odd COUNT`: so many streams, 1, 3, 5 and so on
    OpenOdd(u32),
    /// `close STREAM`
    Close(u32),
    /// `is_open STREAM`
    IsOpen(u32),
    /// `received STREAM OCTETS`
    Received(u32, u32),
    /// `receive_window STREAM`
    ReceiveWindow(u32),
    /// `resolve OCTETS`
    Resolve(u32),
    /// `send_window STREAM`
    SendWindow(u32),
    /// `may_send STREAM`
    MaySend(u32),
    /// `sent STREAM OCTETS`
    Sent(u32, u32),
    /// `update STREAM INCREMENT`
    Update(u32, u32),
    /// `has_room STREAM INCREMENT`
    HasRoom(u32, u32),
    /// `initial VALUE`
    Initial(u32),
    /// `random SEED CALLS`
    Random(u32, u32),
}

impl Call {
    /// The call that a line names; None where it names none.
    pub fn read(line: &str) -> Option<Call> {
        let mut words = line.split_whitespace();
        let name = words.next()?;
        let first = words.next()?.parse::<u32>().ok()?;
        let second = words.next().and_then(|word| word.parse::<u32>().ok());
        match second {
            None => Call::of_one(name, first),
            Some(second) => Call::of_two(name, first, second),
        }
    }

    /// A call that takes one number.
    fn of_one(name: &str, number: u32) -> Option<Call> {
        match name {
            "open" => Some(Call::Open(number)),
            "open_odd" => Some(Call::OpenOdd(number)),
            "close" => Some(Call::Close(number)),
            "is_open" => Some(Call::IsOpen(number)),
            "receive_window" => Some(Call::ReceiveWindow(number)),
            "resolve" => Some(Call::Resolve(number)),
            "send_window" => Some(Call::SendWindow(number)),
            "may_send" => Some(Call::MaySend(number)),
            "initial" => Some(Call::Initial(number)),
            _ => None,
        }
    }

    /// A call that takes two numbers.
    fn of_two(name: &str, first: u32, second: u32) -> Option<Call> {
        match name {
            "received" => Some(Call::Received(first, second)),
            "sent" => Some(Call::Sent(first, second)),
            "update" => Some(Call::Update(first, second)),
            "has_room" => Some(Call::HasRoom(first, second)),
            "random" => Some(Call::Random(first, second)),
            _ => None,
        }
    }

    /// Makes the call, and gives its answer as text.
    pub fn answer(self, alloc: Global, ledger: &mut Ledger) -> Result<String, AllocError> {
        match self {
            Call::Open(stream) => {
                ledger.open_stream(stream);
                opened(alloc, ledger, stream)
            }
            Call::OpenOdd(count) => {
                let open = open_odd(ledger, count);
                format!(in alloc; "{open} are open")
            }
            Call::Close(stream) => {
                ledger.close_stream(stream);
                opened(alloc, ledger, stream)
            }
            Call::IsOpen(stream) => opened(alloc, ledger, stream),
            Call::Received(stream, octets) => outcome(alloc, ledger.received(stream, octets)),
            Call::ReceiveWindow(stream) => {
                let window = ledger.receive_window(stream);
                format!(in alloc; "{window}")
            }
            Call::Resolve(octets) => {
                let increment = ledger.resolve(octets);
                format!(in alloc; "{increment}")
            }
            Call::SendWindow(stream) => {
                let window = ledger.send_window(stream);
                format!(in alloc; "{window}")
            }
            Call::MaySend(stream) => {
                let octets = ledger.may_send(stream);
                format!(in alloc; "{octets}")
            }
            Call::Sent(stream, octets) => {
                if octets > ledger.may_send(stream) {
                    return String::from_str(alloc, "more than may be sent");
                }
                ledger.sent(stream, octets);
                String::from_str(alloc, "ok")
            }
            Call::Update(stream, increment) => outcome(alloc, ledger.update(stream, increment)),
            Call::HasRoom(stream, increment) => {
                let room = ledger.has_room_for(stream, increment);
                format!(in alloc; "{room}")
            }
            Call::Initial(value) => outcome(alloc, ledger.initial(value)),
            Call::Random(seed, calls) => random::compared(alloc, seed, calls),
        }
    }
}

/// Whether a stream is open, as text.
fn opened(alloc: Global, ledger: &Ledger, stream: u32) -> Result<String, AllocError> {
    let open = if ledger.is_open(stream) {
        "open"
    } else {
        "closed"
    };
    String::from_str(alloc, open)
}

/// A fault, or that there is none, as text.
fn outcome(alloc: Global, answer: Result<(), FlowFault>) -> Result<String, AllocError> {
    let text = match answer {
        Ok(()) => "ok",
        Err(FlowFault { whole: true }) => "fault of the connection",
        Err(FlowFault { whole: false }) => "fault of the stream",
    };
    String::from_str(alloc, text)
}

/// Opens the streams 1, 3, 5 and so on, so many of them, and counts those that are open then.
fn open_odd(ledger: &mut Ledger, count: u32) -> u32 {
    for number in 0..count {
        ledger.open_stream(number.wrapping_mul(2) | 1);
    }
    let mut open: u32 = 0;
    for number in 0..count {
        if ledger.is_open(number.wrapping_mul(2) | 1) {
            open = open.saturating_add(1);
        }
    }
    open
}
