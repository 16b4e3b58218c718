//! What a frame comes to where it stands.
ghost use Rattle.std.specs.Prelude.{◌≡◌};
ghost use Rattle.h2_history.specs.Verdicts.{on_open, counted_on, data_on_row, data_verdict, new_stream_verdict, headers_on_row, headers_verdict, reset_verdict, update_on_stream, update_verdict, reported};

use crate::conn::Conn;
use h2_flow::OPEN_STREAMS;
use h2_frames::Role;
use h2_history::{CallEvent, Verdict};
use h2_layouts::code::{FLOW_CONTROL_ERROR, PROTOCOL_ERROR, REFUSED_STREAM, STREAM_CLOSED};
use stream_table::OpenStream;

impl Conn {
    /// The verdict, where the stream is open: one that was never opened has no frames, and those of one
    /// that is closed are ignored.
    fn on_open(&self, stream: u32, verdict: Verdict) -> Verdict
        ensures { result ≡ on_open stream verdict self.now }
    {
        if !self.was_opened(stream) {
            return Verdict::ConnectionError {
                code: PROTOCOL_ERROR,
            };
        }
        if self.streams.is_open(stream) {
            verdict
        } else {
            Verdict::Ignored
        }
    }

    /// On which window DATA of a stream is counted beside the connection's.
    pub(crate) fn counted_on(&self, stream: u32) -> u32
        ensures { result ≡ counted_on self.now.role stream }
    {
        match self.role {
            Role::Server => stream,
            Role::Client => 0,
        }
    }

    /// DATA of so many octets, on a stream in this state.
    fn data_on_row(&self, row: Option<OpenStream>, stream: u32, flow: u32) -> Verdict
        ensures { result ≡ data_on_row row stream flow self.now }
    {
        match row {
            None => Verdict::Ignored,
            Some(row) if row.peer_ended => Verdict::StreamError {
                stream,
                code: STREAM_CLOSED,
            },
            Some(_) if self.ledger.receive_window(self.counted_on(stream)) < flow => {
                Verdict::StreamError {
                    stream,
                    code: FLOW_CONTROL_ERROR,
                }
            }
            Some(_) => Verdict::Accepted,
        }
    }

    /// DATA of so many octets, padding and all.
    pub(crate) fn data_verdict(&self, stream: u32, flow: u32) -> Verdict
        ensures { result ≡ data_verdict stream flow self.now }
    {
        if !self.was_opened(stream) {
            return Verdict::ConnectionError {
                code: PROTOCOL_ERROR,
            };
        }
        if self.ledger.receive_window(0) < flow {
            return Verdict::ConnectionError {
                code: FLOW_CONTROL_ERROR,
            };
        }
        self.data_on_row(self.streams.get(stream), stream, flow)
    }

    /// HEADERS on a stream above the greatest: a client opens it.
    fn new_stream_verdict(&self, stream: u32) -> Verdict
        ensures { result ≡ new_stream_verdict self.now.role stream self.now }
    {
        match self.role {
            Role::Server if self.streams.len() < OPEN_STREAMS => Verdict::Accepted,
            Role::Server => Verdict::StreamError {
                stream,
                code: REFUSED_STREAM,
            },
            Role::Client => Verdict::ConnectionError {
                code: PROTOCOL_ERROR,
            },
        }
    }

    /// HEADERS, whatever is in them.
    pub(crate) fn headers_verdict(&self, stream: u32) -> Verdict
        ensures { result ≡ headers_verdict stream self.now }
    {
        if stream % 2 == 0 {
            return Verdict::ConnectionError {
                code: PROTOCOL_ERROR,
            };
        }
        if self.greatest < stream {
            return self.new_stream_verdict(stream);
        }
        headers_on_row(self.streams.get(stream), stream)
    }

    /// RST_STREAM.
    pub(crate) fn reset_verdict(&self, stream: u32) -> Verdict
        ensures { result ≡ reset_verdict stream self.now }
    {
        self.on_open(stream, Verdict::Accepted)
    }

    /// WINDOW_UPDATE on an open stream.
    fn update_on_stream(&self, stream: u32, increment: u32) -> Verdict
        ensures { result ≡ update_on_stream stream increment self.now }
    {
        if increment == 0 {
            Verdict::StreamError {
                stream,
                code: PROTOCOL_ERROR,
            }
        } else if self.ledger.has_room_for(stream, increment) {
            Verdict::Accepted
        } else {
            Verdict::StreamError {
                stream,
                code: FLOW_CONTROL_ERROR,
            }
        }
    }

    /// WINDOW_UPDATE.
    pub(crate) fn update_verdict(&self, stream: u32, increment: u32) -> Verdict
        ensures { result ≡ update_verdict stream increment self.now }
    {
        if stream != 0 {
            return self.on_open(stream, self.update_on_stream(stream, increment));
        }
        if self.ledger.has_room_for(0, increment) {
            Verdict::Accepted
        } else {
            Verdict::ConnectionError {
                code: FLOW_CONTROL_ERROR,
            }
        }
    }
}

/// HEADERS on a stream that was opened before, in this state.
fn headers_on_row(row: Option<OpenStream>, stream: u32) -> Verdict
    ensures { result ≡ headers_on_row row stream }
{
    match row {
        None => Verdict::Ignored,
        Some(row) if row.peer_ended => Verdict::StreamError {
            stream,
            code: STREAM_CLOSED,
        },
        Some(_) => Verdict::Accepted,
    }
}

/// What is reported of a frame with this verdict, which reports this event where it is accepted.
#[inline(always)]
pub(crate) fn reported(verdict: Verdict, event: Option<CallEvent>) -> Option<CallEvent>
    ensures { result ≡ reported verdict event }
{
    match verdict {
        Verdict::ConnectionError { .. } | Verdict::Ignored => None,
        Verdict::StreamError { stream, code } => Some(CallEvent::Reset { stream, code }),
        Verdict::Accepted => event,
    }
}
