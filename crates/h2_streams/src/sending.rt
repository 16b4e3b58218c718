//! What is put by the calls above: HEADERS, DATA, RST_STREAM, octets of DATA given back.
ghost use Rattle.std.specs.Prelude.{◌≡◌, ◌+◌, ◌≤◌, ◌<◌, true, false, [], length, None, IsTrue, IfOk, OnOk, OnErr};
ghost use Rattle.hpack.specs.Encoding.{encoded_block, writing_after};
ghost use Rattle.hpack.specs.Tables.{list_size};
ghost use Rattle.hpack.specs.declared.limits.TheConstants.{MAX_HEADER_LIST_SIZE};
ghost use Rattle.h2_history.specs.Puts.{out, offered, offer_all};
ghost use Rattle.h2_history.specs.Puts.Put.{Plain, Headers as PutHeaders};
ghost use Rattle.h2_history.specs.Sending.{can_send, can_open, given_back};
ghost use Rattle.h2_history.specs.Standing.{may_put, room, stream_limit, was_opened};
ghost use Rattle.h2_history.specs.declared.limits.TheConstants.{SERVER_WINDOW};
ghost use Rattle.h2_layouts.specs.declared.frame.Frame.TheVariants.{Content as content, Reset as reset_frame};
ghost use Rattle.h2_layouts.specs.declared.flag.TheConstants.{END_STREAM, END_HEADERS};
ghost use Rattle.h2_layouts.specs.declared.limit.TheConstants.{LONGEST_PAYLOAD};
ghost use Rattle.h2_layouts.specs.Written.{flag_if};
ghost use Rattle.h2_streams.specs.Blocked.{with_block};
ghost use Rattle.h2_streams.specs.Sending.{Sends, Opens};

use crate::conn::Conn;
use esi_base::{NoMemory, Octets, Poll};
use h2_flow::{GREATEST_WINDOW, OPEN_STREAMS};
use h2_frames::Role;
use h2_history::limits::ROOM_FOR_DATA;
use h2_layouts::FrameType;
use h2_layouts::code::ENHANCE_YOUR_CALM;
use h2_layouts::flag::{END_HEADERS, END_STREAM};
use h2_layouts::limit::LONGEST_PAYLOAD;
use hpack::Headers;

/// For how many octets of a header block memory is had at once: few blocks are longer, and one that
/// grows is copied.
const FIRST_OCTETS: usize = 256;

/// Why no stream is opened.
#[derive(Clone, Copy, Debug, PartialEq, Eq)]
pub enum OpenStop {
    /// As many streams are open as may be: the peer's MAX_CONCURRENT_STREAMS, or `OPEN_STREAMS`, or none
    /// after a GOAWAY.
    TooMany,
    /// Out of memory.
    NoMemory,
}

impl Conn {
    /// How much room the output has for DATA.
    fn room(&self) -> usize
        ensures { result ≡ room self.now }
    {
        ROOM_FOR_DATA.saturating_sub(self.output.len())
    }

    /// How many octets of DATA may be put on a stream: the least of its window, the connection's, and
    /// the room.
    fn may_put(&self, stream: u32) -> usize
        ensures { result ≡ may_put stream self.now }
    {
        (self.ledger.may_send(stream) as usize).min(self.room())
    }

    /// Whether the stream is open, and this end has not ended it.
    pub fn can_send(&self, stream: u32) -> bool
        ensures { result ≡ can_send stream self.now }
    {
        match self.streams.get(stream) {
            None => false,
            Some(row) => !row.here_ended,
        }
    }

    /// Puts as many of the octets as may be put, as one DATA frame, and reports how many. Pending comes
    /// exactly where the stream's window, the connection's or the room is at most 0. It takes no memory.
    pub fn poll_send(&mut self, stream: u32, octets: &[u8]) -> Poll<usize>
        requires going { self.old.broken ≡ None }
        requires open { IsTrue (can_send stream self.old) }
        requires some { 0 < length octets.now }
        ensures { Sends stream octets.now self.old result self.new }
    {
        let count = self.may_put(stream).min(octets.len());
        if count == 0 {
            return Poll::Pending;
        }
        let count = count.min(LONGEST_PAYLOAD as usize);
        self.put_data(stream, &octets[..count]);
        Poll::Ready(count)
    }

    /// Puts DATA that does not end the stream.
    fn put_data(&mut self, stream: u32, octets: &[u8])
        requires going { self.old.broken ≡ None }
        requires some { 0 < length octets.now }
        requires small { length octets.now ≤ LONGEST_PAYLOAD }
        requires may { length octets.now ≤ may_put stream self.old }
        ensures { self.new ≡ out (Plain (content stream false octets.now (length octets.now))) self.old }
    {
        self.output.push_frame(FrameType::Data, 0, stream, octets);
        self.ledger.sent(stream, octets.len() as u32);
    }

    /// Ends a stream on this side, with an empty DATA frame. It takes no memory.
    pub fn finish(&mut self, stream: u32)
        requires open { IsTrue (can_send stream self.old) }
        ensures { self.new ≡ offered (Plain (content stream true [] 0)) self.old }
    {
        if self.broken.is_some() {
            return;
        }
        if !self.fits(0) {
            return self.break_with(ENHANCE_YOUR_CALM);
        }
        self.output
            .push_frame(FrameType::Data, END_STREAM, stream, &[]);
        self.ledger.sent(stream, 0);
        self.end_here(stream);
    }

    /// Resets a stream, also one that both ends have ended. It takes no memory.
    pub fn reset(&mut self, stream: u32, code: u32)
        requires going { self.old.broken ≡ None }
        requires opened { IsTrue (was_opened stream self.old) }
        ensures { self.new ≡ offered (Plain (reset_frame stream code)) self.old }
    {
        self.offer_reset(stream, code);
    }

    /// Gives octets of DATA back that were reported and not given back: at a client on the stream, where that
    /// is open, and at either end on the connection. It takes no memory.
    pub fn give_back(&mut self, stream: u32, octets: u32)
        requires going { self.old.broken ≡ None }
        requires some { 0 < octets }
        requires few { octets ≤ SERVER_WINDOW }
        ensures { self.new ≡ offer_all (given_back stream octets self.old) self.old }
    {
        if matches!(self.role, Role::Client) && self.streams.is_open(stream) {
            self.offer_update(stream, octets);
        }
        self.offer_update(0, octets);
    }

    /// Memory for a header block: that of the last one, or new memory.
    fn spare_block(&mut self) -> Result<Octets, NoMemory>
        ensures block { IfOk result (λ block. block ≡ []) }
        ensures unchanged { self.new ≡ self.old }
    {
        match self.spare.take() {
            None => Ok(Octets::from_vec(Vec::with_capacity(self.alloc, FIRST_OCTETS)?)),
            Some(block) => {
                let mut empty = block;
                empty.truncate(0);
                Ok(empty)
            }
        }
    }

    /// Keeps the memory of a header block for the next one.
    fn keep_block(&mut self, block: Octets)
        ensures { self.new ≡ self.old }
    {
        self.spare = Some(block);
    }

    /// The block of a header list.
    #[tactic(auto, using(h2_history::specs::BlockSizes::block_len))]
    fn encode(&mut self, headers: &Headers) -> Result<Octets, NoMemory>
        requires going { self.old.broken ≡ None }
        requires small { list_size headers.now ≤ MAX_HEADER_LIST_SIZE }
        ensures block { IfOk result (λ block. block ≡ encoded_block self.old.writing headers.now) }
        ensures small { IfOk result (λ block. length block ≤ LONGEST_PAYLOAD) }
        ensures after { OnOk result (self.new ≡ record self.old { writing = writing_after self.old.writing headers.now }) }
        ensures unchanged { OnErr result (self.new ≡ self.old) }
    {
        let mut block = self.spare_block()?;
        self.encoder.block(headers, &mut block)?;
        Ok(block)
    }

    /// Puts HEADERS with a whole block.
    fn put_block(&mut self, stream: u32, end: bool, block: &[u8])
        requires going { self.old.broken ≡ None }
        requires small { length block.now ≤ LONGEST_PAYLOAD }
        ensures { self.new ≡ with_block stream end block.now self.old }
    {
        if !self.fits(block.len()) {
            return self.break_with(ENHANCE_YOUR_CALM);
        }
        self.output
            .push_frame(FrameType::Headers, headers_flags(end), stream, block);
        if self.greatest < stream {
            self.open(stream);
        }
        if end {
            self.end_here(stream);
        }
    }

    /// Puts HEADERS with a header list.
    #[tactic(auto, using(crate::specs::Blocked::offered_block))]
    fn put_headers(&mut self, stream: u32, headers: &Headers, end: bool) -> Result<(), NoMemory>
        requires { list_size headers.now ≤ MAX_HEADER_LIST_SIZE }
        ensures put { OnOk result (self.new ≡ offered (PutHeaders stream end headers.now) self.old) }
        ensures unchanged { OnErr result (self.new ≡ self.old) }
    {
        if self.broken.is_some() {
            return Ok(());
        }
        let block = self.encode(headers)?;
        self.put_block(stream, end, block.as_slice());
        self.keep_block(block);
        Ok(())
    }

    /// Puts a header list on an open stream, which ends it on this side where `end` says so. It fails
    /// only when it runs out of memory, and then nothing has changed.
    pub fn head(&mut self, stream: u32, headers: &Headers, end: bool) -> Result<(), NoMemory>
        requires open { IsTrue (can_send stream self.old) }
        requires small { list_size headers.now ≤ MAX_HEADER_LIST_SIZE }
        ensures put { OnOk result (self.new ≡ offered (PutHeaders stream end headers.now) self.old) }
        ensures unchanged { OnErr result (self.new ≡ self.old) }
    {
        self.put_headers(stream, headers, end)
    }

    /// Whether this end is a client whose connection goes on, and has streams left to open.
    pub fn can_open(&self) -> bool
        ensures { result ≡ can_open self.now }
    {
        matches!(self.role, Role::Client)
            && self.broken.is_none()
            && self.greatest < GREATEST_WINDOW
    }

    /// How many streams this end has open at most.
    fn stream_limit(&self) -> usize
        ensures { result ≡ stream_limit self.now }
    {
        if self.away {
            0
        } else {
            (self.most as usize).min(OPEN_STREAMS)
        }
    }

    /// Opens a stream with a header list, and reports which. It is for a client. `TooMany` comes exactly
    /// where as many streams are open as may be. Where it fails nothing has changed.
    pub fn open_call(&mut self, headers: &Headers) -> Result<u32, OpenStop>
        requires may { IsTrue (can_open self.old) }
        requires small { list_size headers.now ≤ MAX_HEADER_LIST_SIZE }
        ensures { Opens headers.now self.old result self.new }
    {
        if self.streams.len() >= self.stream_limit() {
            return Err(OpenStop::TooMany);
        }
        let stream = if self.greatest == 0 {
            1
        } else {
            self.greatest + 2
        };
        match self.put_headers(stream, headers, false) {
            Ok(()) => Ok(stream),
            Err(NoMemory) => Err(OpenStop::NoMemory),
        }
    }
}

/// The flags of HEADERS with a whole block.
fn headers_flags(end: bool) -> u8
    ensures { result ≡ flag_if end END_STREAM + END_HEADERS }
{
    if end {
        END_STREAM + END_HEADERS
    } else {
        END_HEADERS
    }
}
