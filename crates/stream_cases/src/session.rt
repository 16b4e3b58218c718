//! One end of a connection, and what is done with it.

use crate::lists::{reply, request};
use crate::text;
use case_words::octets_of;
use esi_base::Poll;
use h2_streams::{CallEvent, Conn, OpenStop};
use std::alloc::{AllocError, Global};

/// The types and the flag of the frames that `visit` and `fill` feed.
const DATA: u8 = 0;

const HEADERS: u8 = 1;

const RST_STREAM: u8 = 3;

const END_HEADERS: u8 = 4;

/// An end, and what has happened on it.
#[derive(Drop)]
struct Session {
    alloc: Global,
    conn: Conn,
    single: bool,
    shown: usize,
    next: u32,
    events: u64,
    log: String,
}

/// What happens where these words are done with an end; None where one is no word. Octets are fed one by one where
/// `single` says so, and so many octets of output are shown whole.
pub fn answer(
    alloc: Global,
    conn: Conn,
    server: bool,
    words: &str,
    single: bool,
    shown: usize,
) -> Result<Option<String>, AllocError> {
    let mut session = Session {
        alloc,
        conn,
        single,
        shown,
        next: 1,
        events: 0,
        log: String::new(alloc),
    };
    let mut first = true;
    for word in words.split_whitespace() {
        if first && word != "new" {
            session.begin(server)?;
        }
        if !(first && word == "new") && !session.act(word)? {
            return Ok(None);
        }
        first = false;
    }
    session.report_output()?;
    Ok(Some(session.log))
}

impl Session {
    /// Takes what the end has put, and feeds it the first SETTINGS.
    fn begin(&mut self, server: bool) -> Result<(), AllocError> {
        self.take();
        let start = if server {
            "preface settings"
        } else {
            "settings"
        };
        if let Some(octets) = octets_of(self.alloc, start)? {
            self.feed(octets.as_slice())?;
        }
        self.take();
        Ok(())
    }

    /// Lets all of the output go.
    fn take(&mut self) {
        let count = self.conn.output().len();
        self.conn.take_output(count);
    }

    /// Does what a word says: octets in hexadecimal digits, or a call with its numbers behind colons.
    fn act(&mut self, word: &str) -> Result<bool, AllocError> {
        let mut pieces = word.split(":");
        let name = pieces.next().unwrap_or("");
        let stream = number(pieces.next());
        let count = number(pieces.next());
        match name {
            "take" => self.take(),
            "keep" => self.report_output()?,
            "open" => self.open(stream)?,
            "head" => self.head(stream, count)?,
            "send" => self.send(stream, count)?,
            "finish" => self.finish(stream)?,
            "reset" => self.reset(stream, count)?,
            "back" => self.give_back(stream, count)?,
            "visit" => self.visit(stream)?,
            "fill" => self.fill(stream, count)?,
            _ => return self.feed_word(word),
        }
        Ok(true)
    }

    /// Feeds the octets of a word.
    fn feed_word(&mut self, word: &str) -> Result<bool, AllocError> {
        let Some(octets) = octets_of(self.alloc, word)? else {
            return Ok(false);
        };
        self.feed(octets.as_slice())?;
        Ok(true)
    }

    /// Feeds octets, in one piece or one by one, and reports what happens.
    fn feed(&mut self, octets: &[u8]) -> Result<(), AllocError> {
        if !self.single {
            return self.feed_piece(octets);
        }
        for octet in octets {
            self.feed_piece(&[*octet])?;
        }
        Ok(())
    }

    fn feed_piece(&mut self, octets: &[u8]) -> Result<(), AllocError> {
        if self.conn.feed(octets).is_err() {
            return Err(AllocError);
        }
        self.poll()
    }

    /// Reports what happens, up to Pending, or up to the end of the connection, which is reported once.
    fn poll(&mut self) -> Result<(), AllocError> {
        for _ in 0..1_000_000_000 {
            match self.conn.poll_call() {
                Poll::Pending => return Ok(()),
                Poll::Ready(Err(_failed)) => return Err(AllocError),
                Poll::Ready(Ok(CallEvent::Broken { code })) => return self.report_broken(code),
                Poll::Ready(Ok(event)) => {
                    let event = text::of_event(self.alloc, &event)?;
                    self.report(event.as_str())?;
                }
            }
        }
        Ok(())
    }

    fn report(&mut self, text: &str) -> Result<(), AllocError> {
        self.log.push_str(text)?;
        self.log.push_str("; ")
    }

    /// Reports that the connection has ended, where it was not reported before.
    fn report_broken(&mut self, code: u32) -> Result<(), AllocError> {
        let text = format!(in self.alloc; "broken {code}; ")?;
        if !self.log.as_str().ends_with(text.as_str()) {
            self.log.push_str(text.as_str())?;
        }
        Ok(())
    }

    /// Reports how many octets the output has, and which.
    fn report_output(&mut self) -> Result<(), AllocError> {
        let output = text::of_output(self.alloc, self.conn.output(), self.shown)?;
        self.log.push_str(output.as_str())
    }

    /// Feeds HEADERS of the next streams and RST_STREAM behind each, and reports how many events came.
    fn visit(&mut self, count: u32) -> Result<(), AllocError> {
        self.events = 0;
        for _ in 0..count {
            let stream = self.next_stream();
            self.feed_frame(HEADERS, END_HEADERS, stream, b"\x83\x86\x04\x01/")?;
            self.feed_frame(RST_STREAM, 0, stream, &[0, 0, 0, 0])?;
        }
        self.report_events()
    }

    /// Feeds HEADERS of the next streams and DATA of so many octets behind each.
    fn fill(&mut self, count: u32, octets: u32) -> Result<(), AllocError> {
        self.events = 0;
        let payload = Vec::from_elem(self.alloc, 0u8, octets as usize)?;
        for _ in 0..count {
            let stream = self.next_stream();
            self.feed_frame(HEADERS, END_HEADERS, stream, b"\x83\x86\x04\x01/")?;
            self.feed_frame(DATA, 0, stream, payload.as_slice())?;
        }
        self.report_events()
    }

    fn next_stream(&mut self) -> u32 {
        let stream = self.next;
        self.next = stream.wrapping_add(2);
        stream
    }

    /// Feeds a frame, and counts what happens.
    fn feed_frame(
        &mut self,
        kind: u8,
        flags: u8,
        stream: u32,
        payload: &[u8],
    ) -> Result<(), AllocError> {
        let [_, a, b, c] = (payload.len().min(16_384) as u32).to_be_bytes();
        let [s, t, u, v] = stream.to_be_bytes();
        self.feed_counted(&[a, b, c, kind, flags, s, t, u, v])?;
        self.feed_counted(payload)
    }

    fn feed_counted(&mut self, octets: &[u8]) -> Result<(), AllocError> {
        if self.conn.feed(octets).is_err() {
            return Err(AllocError);
        }
        for _ in 0..1_000 {
            match self.conn.poll_call() {
                Poll::Pending => return Ok(()),
                Poll::Ready(Err(_failed)) => return Err(AllocError),
                Poll::Ready(Ok(CallEvent::Broken { .. })) => return Ok(()),
                Poll::Ready(Ok(_event)) => self.events = self.events.wrapping_add(1),
            }
        }
        Ok(())
    }

    fn report_events(&mut self) -> Result<(), AllocError> {
        let events = self.events;
        let text = format!(in self.alloc; "{events} events")?;
        self.report(text.as_str())
    }

    /// Opens so many calls, one at least.
    fn open(&mut self, count: u32) -> Result<(), AllocError> {
        for _ in 0..count.max(1) {
            if self.conn.can_open() {
                let headers = request(self.alloc)?;
                match self.conn.open_call(&headers) {
                    Ok(stream) => {
                        let text = format!(in self.alloc; "opened {stream}")?;
                        self.report(text.as_str())?;
                    }
                    Err(OpenStop::TooMany) => self.report("too many")?,
                    Err(OpenStop::NoMemory) => return Err(AllocError),
                }
            } else {
                self.report("may not open")?;
            }
        }
        Ok(())
    }

    fn head(&mut self, stream: u32, end: u32) -> Result<(), AllocError> {
        if !self.conn.can_send(stream) {
            return self.report("may not send");
        }
        let headers = reply(self.alloc)?;
        if self.conn.head(stream, &headers, end != 0).is_err() {
            return Err(AllocError);
        }
        Ok(())
    }

    /// Puts octets of DATA, in as many frames as it takes, and reports how many.
    fn send(&mut self, stream: u32, count: u32) -> Result<(), AllocError> {
        let octets = Vec::from_elem(self.alloc, 0u8, count as usize)?;
        let mut sent: usize = 0;
        for _ in 0..1_000_000 {
            if sent >= octets.len() {
                break;
            }
            if self.conn.is_broken() || !self.conn.can_send(stream) {
                return self.report("may not send");
            }
            match self.conn.poll_send(stream, &octets[sent..]) {
                Poll::Pending => {
                    let text = format!(in self.alloc; "sent {sent}, pending")?;
                    return self.report(text.as_str());
                }
                Poll::Ready(more) => sent = sent.saturating_add(more),
            }
        }
        let text = format!(in self.alloc; "sent {sent}")?;
        self.report(text.as_str())
    }

    fn finish(&mut self, stream: u32) -> Result<(), AllocError> {
        if !self.conn.can_send(stream) {
            return self.report("may not send");
        }
        self.conn.finish(stream);
        Ok(())
    }

    fn reset(&mut self, stream: u32, code: u32) -> Result<(), AllocError> {
        if self.conn.is_broken() || !self.conn.was_opened(stream) {
            return self.report("may not reset");
        }
        self.conn.reset(stream, code);
        Ok(())
    }

    fn give_back(&mut self, stream: u32, octets: u32) -> Result<(), AllocError> {
        if self.conn.is_broken() || octets == 0 || octets > 1_048_576 {
            return self.report("may not give back");
        }
        self.conn.give_back(stream, octets);
        Ok(())
    }
}

/// The number that a piece of a word is; 0 where it is none.
fn number(piece: Option<&str>) -> u32 {
    piece.unwrap_or("0").parse::<u32>().unwrap_or(0)
}
