//! The windows of one connection.
ghost use Rattle.std.specs.Prelude.{◌≡◌, ◌≤◌, min, IfOk};
ghost use Rattle.h2_flow.specs.Windows.{first_windows, is_open, after_opening, after_closing, answer_at_receipt, receive_window, increment_due, after_resolving, send_window, may_send, after_sending, answer_at_update, has_room_for, answer_at_setting, fault_in, passes_some};
ghost use Rattle.h2_flow.specs.Streams.{octets_of};

use crate::limits::{FIRST_WINDOW, GREATEST_WINDOW, OPEN_STREAMS};
use crate::stream_windows::{StreamWindows, index_of, is_too_great};
use esi_base::NoMemory;
use std::alloc::Global;
use std::marker::Model;

/// A flow-control error (RFC 9113, section 6.9): a window would fall below 0 by octets that arrive, or
/// pass `GREATEST_WINDOW`.
#[derive(Clone, Copy, Debug, PartialEq, Eq)]
pub struct FlowFault {
    /// Whether it is the connection's window, else a stream's.
    pub whole: bool,
}

/// The windows of a connection and of its open streams.
#[derive(Drop)]
pub struct Ledger {
    initial: u32,
    send: u32,
    receive: u32,
    streams: Vec<StreamWindows>,
}

impl Model for Ledger {
    ghost use Rattle.std.specs.Prelude.{◌≤◌, vec_capacity};
    ghost use Rattle.h2_flow.specs.declared.limits.TheConstants.{OPEN_STREAMS};
    ghost use Rattle.h2_flow.specs.Windows.{Windows, AreBounded};

    ghost Value = { Windows };

    ghost view = { λ l. record { initial = l.initial; send = l.send; receive = l.receive; streams = l.streams.items } };

    ghost invariant = { λ l. AreBounded (record { initial = l.initial; send = l.send; receive = l.receive; streams = l.streams.items }) × (OPEN_STREAMS ≤ vec_capacity l.streams) };
}

impl Ledger {
    /// The ledger of a new connection: no stream is open. It takes all the memory that it will ever need.
    pub fn new(alloc: Global) -> Result<Ledger, NoMemory>
        ensures { IfOk result (λ ledger. ledger ≡ first_windows) }
    {
        Ok(Ledger {
            initial: FIRST_WINDOW,
            send: FIRST_WINDOW,
            receive: FIRST_WINDOW,
            streams: Vec::with_capacity(alloc, OPEN_STREAMS)?,
        })
    }

    /// Whether the stream is open.
    #[tactic(auto, using(crate::specs::IndexLaws::open_by_index))]
    pub fn is_open(&self, stream: u32) -> bool
        ensures { result ≡ is_open stream self.now }
    {
        index_of(&self.streams, stream).is_some()
    }

    /// Opens a stream, with new windows. It is for a stream that is neither open nor 0, while fewer than
    /// `OPEN_STREAMS` are open; any other call changes nothing.
    pub fn open_stream(&mut self, stream: u32)
        ensures { self.new ≡ after_opening stream self.old }
    {
        if stream > 0 && !self.is_open(stream) && self.streams.len() < OPEN_STREAMS {
            self.streams.push_reserved(StreamWindows {
                stream,
                credit: 0,
                receive: FIRST_WINDOW,
            });
        }
    }

    /// Closes a stream, and forgets its windows.
    pub fn close_stream(&mut self, stream: u32)
        ensures { self.new ≡ after_closing stream self.old }
    {
        if let Some(at) = index_of(&self.streams, stream) {
            let _closed = self.streams.remove(at);
        }
    }

    /// Counts octets of DATA that arrived, on the connection and then on the stream; on the connection
    /// alone where the stream is 0 or not open. A fault comes exactly where a window would fall below 0.
    /// After a fault of the connection's window nothing has changed, and after one of the stream's the
    /// connection has counted the octets.
    pub fn received(&mut self, stream: u32, octets: u32) -> Result<(), FlowFault>
        ensures { record { fault = fault_in result; windows = self.new }
            ≡ answer_at_receipt stream octets self.old }
    {
        if self.receive < octets {
            return Err(FlowFault { whole: true });
        }
        self.receive -= octets;
        if stream == 0 {
            return Ok(());
        }
        if let Some(at) = index_of(&self.streams, stream) {
            let row = &mut self.streams[at];
            if row.receive < octets {
                return Err(FlowFault { whole: false });
            }
            row.receive -= octets;
        }
        Ok(())
    }

    /// The window to receive of a stream, or of the connection where the stream is 0: how many octets of
    /// DATA may still arrive before `received` reports a fault. It is 0 where the stream is not open.
    pub fn receive_window(&self, stream: u32) -> u32
        ensures { result ≡ receive_window stream self.now }
    {
        if stream == 0 {
            return self.receive;
        }
        match index_of(&self.streams, stream) {
            None => 0,
            Some(at) => self.streams[at].receive,
        }
    }

    /// Counts octets that the peer may send again, and gives the increment due for them: a WINDOW_UPDATE
    /// of so much on stream 0.
    pub fn resolve(&mut self, octets: u32) -> u32
        ensures due { result ≡ increment_due octets self.old }
        ensures counted { self.new ≡ after_resolving octets self.old }
    {
        let increment = octets.min(GREATEST_WINDOW - self.receive);
        self.receive += increment;
        increment
    }

    /// The window to send of a stream, or of the connection where the stream is 0. A stream's is negative
    /// where the peer has made its setting smaller than what was sent. It is 0 where the stream is not
    /// open.
    pub fn send_window(&self, stream: u32) -> i64
        ensures { result ≡ send_window stream self.now }
    {
        if stream == 0 {
            return i64::from(self.send);
        }
        match index_of(&self.streams, stream) {
            None => 0,
            Some(at) => self.streams[at].send_window(self.initial),
        }
    }

    /// How many octets of DATA may be sent on a stream: the lesser of its window and the connection's,
    /// and 0 where that is negative, or the stream is not open.
    pub fn may_send(&self, stream: u32) -> u32
        ensures { result ≡ may_send stream self.now }
    {
        match index_of(&self.streams, stream) {
            None => 0,
            Some(at) => {
                let window = self.streams[at].send_window(self.initial);
                octets_within(window, self.send)
            }
        }
    }

    /// Counts octets of DATA that are sent on a stream, at most as many as may be sent.
    #[tactic(auto, using(crate::specs::WindowLaws::may_spend))]
    pub fn sent(&mut self, stream: u32, octets: u32)
        requires { octets ≤ may_send stream self.old }
        ensures { self.new ≡ after_sending stream octets self.old }
    {
        if let Some(at) = index_of(&self.streams, stream) {
            self.send -= octets;
            let row = &mut self.streams[at];
            row.spend(octets);
        }
    }

    /// Counts an increment that the peer has given a stream, or the connection where the stream is 0; it
    /// changes nothing where the stream is not open. A fault comes exactly where the window would pass
    /// `GREATEST_WINDOW`, and then nothing has changed.
    pub fn update(&mut self, stream: u32, increment: u32) -> Result<(), FlowFault>
        ensures { record { fault = fault_in result; windows = self.new }
            ≡ answer_at_update stream increment self.old }
    {
        if stream == 0 {
            if increment > GREATEST_WINDOW - self.send {
                return Err(FlowFault { whole: true });
            }
            self.send += increment;
        } else if let Some(at) = index_of(&self.streams, stream) {
            let initial = self.initial;
            let row = &mut self.streams[at];
            if is_too_great(row.send_window_with(initial, increment)) {
                return Err(FlowFault { whole: false });
            }
            row.gain(increment);
        }
        Ok(())
    }

    /// Whether `update` would take an increment, and report no fault.
    pub fn has_room_for(&self, stream: u32, increment: u32) -> bool
        ensures { result ≡ has_room_for stream increment self.now }
    {
        if stream == 0 {
            return increment <= GREATEST_WINDOW - self.send;
        }
        match index_of(&self.streams, stream) {
            None => true,
            Some(at) => {
                let window = self.streams[at].send_window_with(self.initial, increment);
                !is_too_great(window)
            }
        }
    }

    /// Takes the peer's setting INITIAL_WINDOW_SIZE, which is a part of the window to send of each open
    /// stream and of those that will be opened. A fault comes exactly where the value, or the window of
    /// an open stream, would pass `GREATEST_WINDOW`, and then nothing has changed.
    pub fn initial(&mut self, value: u32) -> Result<(), FlowFault>
        ensures { record { fault = fault_in result; windows = self.new }
            ≡ answer_at_setting value self.old }
    {
        if value > GREATEST_WINDOW || passes_some(&self.streams, value) {
            return Err(FlowFault { whole: false });
        }
        self.initial = value;
        Ok(())
    }
}

/// The octets that may be sent in a window, and at most so many: none where it is negative.
fn octets_within(window: i64, most: u32) -> u32
    ensures { result ≡ min (octets_of window) most }
{
    window.clamp(0, i64::from(most)) as u32
}

/// Whether the window to send of some open stream would pass `GREATEST_WINDOW`, were this the peer's
/// setting.
fn passes_some(streams: &[StreamWindows], value: u32) -> bool
    ensures { result ≡ passes_some value streams.now }
{
    streams
        .iter()
        .any(|row| is_too_great(row.send_window(value)))
}
