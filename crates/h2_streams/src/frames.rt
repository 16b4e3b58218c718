//! What a frame does that is read.
ghost use Rattle.std.specs.Prelude.{◌≡◌, IfOk, None as none};
ghost use Rattle.h2_history.specs.Frames.{counted, data_seen, headers_opens, goaway_seen, continued_outcome, frame_read};
ghost use Rattle.h2_streams.specs.Reported.{reported_of_list, reported_of_headers};
ghost use Rattle.h2_layouts.specs.declared.frame.Frame.TheVariants as frames;

use crate::blocks::BlockRead;
use crate::conn::Conn;
use crate::verdicts::reported;
use esi_base::{NoMemory, Octets};
use h2_flow::OPEN_STREAMS;
use h2_frames::{Frame, Role, Setting};
use h2_history::{CallEvent, HeaderBlock, Verdict};

impl Conn {
    /// Counts octets of DATA on the connection, and on the stream where it is not 0.
    fn count(&mut self, stream: u32, flow: u32)
        ensures { self.new ≡ counted stream flow self.old }
    {
        let _counted = self.ledger.received(stream, flow);
    }

    /// Counts DATA, and lets it end the stream.
    fn see_data(&mut self, verdict: Verdict, stream: u32, end: bool, flow: u32)
        ensures { self.new ≡ data_seen verdict stream end flow self.old }
    {
        match verdict {
            Verdict::ConnectionError { .. } => {}
            Verdict::StreamError { .. } | Verdict::Ignored => self.count(0, flow),
            Verdict::Accepted => {
                self.count(self.counted_on(stream), flow);
                if end {
                    self.end_by_peer(stream);
                }
            }
        }
    }

    /// DATA.
    fn read_data(&mut self, stream: u32, end: bool, octets: Octets, flow: u32) -> Option<CallEvent>
        ensures { record { left = self.new; event = result } ≡ frame_read (frames.Content stream end octets flow) self.old }
    {
        let verdict = self.data_verdict(stream, flow);
        self.see_data(verdict, stream, end, flow);
        self.owe(verdict, flow);
        reported(
            verdict,
            Some(CallEvent::Part {
                stream,
                octets,
                flow,
                end,
            }),
        )
    }

    /// HEADERS of a greater stream than any before open it, also where it is refused.
    fn open_by_headers(&mut self, stream: u32)
        ensures { self.new ≡ headers_opens stream self.old }
    {
        if self.greatest >= stream {
            return;
        }
        if self.streams.len() < OPEN_STREAMS {
            self.open(stream);
        } else {
            self.greatest = stream;
        }
    }

    /// HEADERS.
    fn read_headers(
        &mut self,
        stream: u32,
        end: bool,
        last: bool,
        octets: Octets,
    ) -> Result<Option<CallEvent>, NoMemory>
        ensures { IfOk result (λ event. record { left = self.new; event = event } ≡ frame_read (frames.Head stream end last octets) self.old) }
    {
        let verdict = self.headers_verdict(stream);
        if let Verdict::ConnectionError { code } = verdict {
            self.offer_goaway(code);
            return Ok(None);
        }
        self.open_by_headers(stream);
        let block = HeaderBlock {
            stream,
            end,
            wanted: matches!(verdict, Verdict::Accepted),
            octets,
            continued: 0,
        };
        let read = self.read_fragment(last, block)?;
        self.owe(verdict, 0);
        self.owe(read.verdict, 0);
        Ok(headers_reported(verdict, stream, end, read))
    }

    /// CONTINUATION of the block that is not whole.
    fn read_continuation(
        &mut self,
        last: bool,
        octets: &[u8],
    ) -> Result<Option<CallEvent>, NoMemory>
        ensures { IfOk result (λ event. record { left = self.new; event = event } ≡ continued_outcome last octets.now self.old) }
    {
        let Some(block) = self.block.take() else {
            return Ok(None);
        };
        let (stream, end) = (block.stream, block.end);
        let read = self.read_more(last, octets, block)?;
        self.owe(read.verdict, 0);
        Ok(list_reported(stream, end, read))
    }

    /// RST_STREAM.
    fn read_reset(&mut self, stream: u32, code: u32) -> Option<CallEvent>
        ensures { record { left = self.new; event = result } ≡ frame_read (frames.Reset stream code) self.old }
    {
        let verdict = self.reset_verdict(stream);
        if matches!(verdict, Verdict::Accepted) {
            self.shut(stream);
        }
        self.owe(verdict, 0);
        reported(verdict, Some(CallEvent::Reset { stream, code }))
    }

    /// WINDOW_UPDATE.
    fn read_update(&mut self, stream: u32, increment: u32) -> Option<CallEvent>
        ensures { record { left = self.new; event = result } ≡ frame_read (frames.Update stream increment) self.old }
    {
        let verdict = self.update_verdict(stream, increment);
        if matches!(verdict, Verdict::Accepted) {
            let _updated = self.ledger.update(stream, increment);
        }
        self.owe(verdict, 0);
        reported(verdict, None)
    }

    /// SETTINGS, on a connection that goes on.
    fn read_settings(&mut self, settings: &[Setting])
        requires going { self.old.broken ≡ none }
        ensures { record { left = self.new; event = none } ≡ frame_read (frames.Settings settings.now) self.old }
    {
        match self.settle(settings) {
            Verdict::ConnectionError { code } => self.offer_goaway(code),
            Verdict::StreamError { .. } | Verdict::Ignored => {}
            Verdict::Accepted => self.offer_settings_ack(),
        }
    }

    /// GOAWAY: a client opens no further stream.
    fn read_goaway(&mut self)
        ensures { self.new ≡ goaway_seen self.old.role self.old }
    {
        if matches!(self.role, Role::Client) {
            self.away = true;
        }
    }

    /// Any frame, on a connection that goes on.
    pub(crate) fn read_frame(&mut self, frame: Frame) -> Result<Option<CallEvent>, NoMemory>
        requires going { self.old.broken ≡ none }
        ensures { IfOk result (λ event. record { left = self.new; event = event } ≡ frame_read frame self.old) }
    {
        match frame {
            Frame::Content {
                stream,
                end,
                octets,
                flow,
            } => Ok(self.read_data(stream, end, octets, flow)),
            Frame::Head {
                stream,
                end,
                last,
                octets,
            } => self.read_headers(stream, end, last, octets),
            Frame::Continued { last, octets, .. } => self.read_continuation(
                last,
                octets.as_slice(),
            ),
            Frame::Reset { stream, code } => Ok(self.read_reset(stream, code)),
            Frame::Update { stream, increment } => Ok(self.read_update(stream, increment)),
            Frame::Settings { pairs } => {
                self.read_settings(pairs.as_slice());
                Ok(None)
            }
            Frame::Ping { ack: false, octets } => {
                self.offer_ping_ack(&octets);
                Ok(None)
            }
            Frame::GoAway { .. } => {
                self.read_goaway();
                Ok(None)
            }
            Frame::Ping { ack: true, .. }
            | Frame::Priority { .. }
            | Frame::SettingsAck
            | Frame::Unknown { .. } => Ok(None),
        }
    }
}

/// What is reported of a block's list, where it is accepted.
#[inline(always)]
fn list_reported(stream: u32, end: bool, read: BlockRead) -> Option<CallEvent>
    ensures { result ≡ reported_of_list read.verdict stream read.headers end }
{
    reported(
        read.verdict,
        Some(CallEvent::Head {
            stream,
            headers: read.headers,
            end,
        }),
    )
}

/// What is reported of HEADERS: what breaks a rule of the stream, else what is reported of the list.
#[inline(always)]
fn headers_reported(verdict: Verdict, stream: u32, end: bool, read: BlockRead) -> Option<CallEvent>
    ensures { result ≡ reported_of_headers verdict stream end read.verdict read.headers }
{
    match verdict {
        Verdict::ConnectionError { .. } => None,
        Verdict::StreamError { stream, code } => Some(CallEvent::Reset { stream, code }),
        Verdict::Ignored | Verdict::Accepted => list_reported(stream, end, read),
    }
}
