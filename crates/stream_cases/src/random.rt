//! Random cases: what is done with one end, from a seed. `bench/connections/random_words.py` makes the same words
//! from the same numbers.
ghost use Rattle.std.specs.Prelude.{◌<◌, ◌+◌, length};

use crate::blocks::{fatal_field, field, first_reply, first_request, last_block};
use case_words::{Numbers, octets_of};
use std::alloc::{AllocError, Global};

/// The types and the flags of frames.
const DATA: u8 = 0;

const HEADERS: u8 = 1;

const PRIORITY: u8 = 2;

const RST_STREAM: u8 = 3;

const SETTINGS: u8 = 4;

const PUSH_PROMISE: u8 = 5;

const PING: u8 = 6;

const GOAWAY: u8 = 7;

const WINDOW_UPDATE: u8 = 8;

const CONTINUATION: u8 = 9;

const END_STREAM: u8 = 1;

const ACK: u8 = 1;

const END_HEADERS: u8 = 4;

const PADDED: u8 = 8;

const WITH_PRIORITY: u8 = 32;

/// The longest payload of a frame.
const LONGEST_PAYLOAD: u32 = 16_384;

/// The greatest window.
const GREATEST_WINDOW: u32 = 2_147_483_647;

/// The words of a case, as far as they are made.
#[derive(Drop)]
struct Words {
    alloc: Global,
    numbers: Numbers,
    server: bool,
    /// Whether much of its DATA is as long as a frame may be.
    heavy: bool,
    /// How many streams were opened, as far as the words tell.
    opened: u32,
    /// Whether the last word is octets, to which further ones may be joined.
    joins: bool,
    text: String,
}

/// The words of a case at this end, in so many steps.
pub fn case_words(
    alloc: Global,
    server: bool,
    first: Numbers,
    steps: u32,
) -> Result<String, AllocError> {
    let mut numbers = first;
    let heavy = numbers.below(4) == 0;
    let mut words = Words {
        alloc,
        numbers,
        server,
        heavy,
        opened: 0,
        joins: false,
        text: String::new(alloc),
    };
    for _ in 0..steps {
        words.step()?;
    }
    Ok(words.text)
}

impl Words {
    /// One step: a frame of the peer, mostly one that breaks no rule, or a call of this end.
    fn step(&mut self) -> Result<(), AllocError> {
        let kind = self.numbers.below(36);
        if self.opened == 0 {
            return self.begin();
        }
        match kind {
            0..=5 => self.begin(),
            6..=11 => self.data(),
            12..=15 => self.more_headers(),
            16 => self.reset(),
            17..=18 => self.update(),
            19 => self.settings(),
            20 => self.ping(0),
            21 => self.without_meaning(),
            22 => self.seldom_broken(),
            _ => self.call(kind),
        }
    }

    /// A call of this end.
    fn call(&mut self, kind: u32) -> Result<(), AllocError> {
        if kind >= 33 {
            return self.word("keep take");
        }
        let stream = self.some_stream();
        match kind {
            23..=24 => {
                let end = self.numbers.below(2);
                self.word_of("head", stream, end)
            }
            25..=27 => {
                let long = self.numbers.below(3) == 0;
                let most = if long { 40_000 } else { 500 };
                let count = self.numbers.below(most).wrapping_add(1);
                self.word_of("send", stream, count)
            }
            28..=29 => self.word_of("finish", stream, 0),
            30 => {
                let code = self.numbers.below(14);
                self.word_of("reset", stream, code)
            }
            _ => {
                let octets = self.numbers.below(20_000).wrapping_add(1);
                self.word_of("back", stream, octets)
            }
        }
    }

    /// A stream: mostly one of the last that were opened, seldom any other, or none.
    fn some_stream(&mut self) -> u32 {
        let any = self.numbers.below(160) == 0;
        let old = self.numbers.below(8) == 0;
        if any {
            return self
                .numbers
                .below(self.opened.saturating_mul(2).saturating_add(4));
        }
        let span = if old { self.opened } else { self.opened.min(5) };
        let back = self.numbers.below(span.max(1));
        let at = self.opened.saturating_sub(1).saturating_sub(back);
        at.wrapping_mul(2).wrapping_add(1)
    }

    /// One stream more: a request at a server, a call of a client. Seldom a server's peer leaves some out.
    fn begin(&mut self) -> Result<(), AllocError> {
        if !self.server {
            self.opened = self.opened.wrapping_add(1);
            return self.word("open");
        }
        if self.numbers.below(16) == 0 {
            let more = self.numbers.below(3);
            self.opened = self.opened.wrapping_add(more);
        }
        let stream = self.opened.wrapping_mul(2).wrapping_add(1);
        self.opened = self.opened.wrapping_add(1);
        let at = self.numbers.below(8);
        let end = self.numbers.below(4) == 0;
        let block = self.block(first_request(at))?;
        self.headers(stream, end, block.as_slice())
    }

    /// A header block on a stream that was opened: a reply's at a client, or trailers.
    fn more_headers(&mut self) -> Result<(), AllocError> {
        let stream = self.some_stream();
        let first = !self.server && self.numbers.below(4) != 0;
        let at = self.numbers.below(8);
        let end = self.numbers.below(4) == 0 || !first;
        let block = self.block(if first {
            first_reply(at)
        } else {
            last_block(at)
        })?;
        self.headers(stream, end, block.as_slice())
    }

    /// A header block that begins with these digits, with up to two fields behind them.
    fn block(&mut self, digits: &str) -> Result<Vec<u8>, AllocError> {
        let mut text = String::new(self.alloc);
        text.push_str(digits)?;
        for _ in 0..self.numbers.below(3) {
            text.push_str(field(self.numbers.below(32)))?;
        }
        if self.numbers.below(128) == 0 {
            text.push_str(fatal_field(self.numbers.below(8)))?;
        }
        match octets_of(self.alloc, text.as_str())? {
            Some(octets) => Ok(octets),
            None => Ok(Vec::new(self.alloc)),
        }
    }

    /// A header block, in one frame or in several.
    fn headers(&mut self, stream: u32, end: bool, block: &[u8]) -> Result<(), AllocError> {
        let split = self.numbers.below(6) == 0;
        let padded = self.numbers.below(8) == 0;
        let with_priority = self.numbers.below(8) == 0;
        let first = if split {
            self.part_of(block)
        } else {
            block.len()
        };
        let mut flags = 0;
        let mut payload = Vec::new(self.alloc);
        let mut pad = 0;
        if end {
            flags |= END_STREAM;
        }
        if !split {
            flags |= END_HEADERS;
        }
        if padded {
            flags |= PADDED;
            pad = self.numbers.below(20) as u8;
            payload.push(pad)?;
        }
        if with_priority {
            flags |= WITH_PRIORITY;
            payload.extend_from_slice(&[0, 0, 0, 0, 16])?;
        }
        payload.extend_from_slice(&block[..first])?;
        for _ in 0..pad {
            payload.push(0)?;
        }
        self.frame(HEADERS, flags, stream, payload.as_slice())?;
        if split {
            self.continuations(stream, &block[first..])?;
        }
        Ok(())
    }

    /// The rest of a header block, in one or two frames. Seldom another frame comes before them.
    fn continuations(&mut self, stream: u32, rest: &[u8]) -> Result<(), AllocError> {
        if self.numbers.below(24) == 0 {
            self.ping(0)?;
        }
        let mut from = 0;
        if self.numbers.coin() {
            from = self.part_of(rest);
            self.frame(CONTINUATION, 0, stream, &rest[..from])?;
        }
        self.frame(CONTINUATION, END_HEADERS, stream, &rest[from..])
    }

    /// How long a part of octets is.
    fn part_of(&mut self, octets: &[u8]) -> usize
        ensures { result < length octets.now + 1 }
    {
        let bound = octets.len().min(1_000) as u32 + 1;
        let count = self.numbers.below(bound) as usize;
        count.min(octets.len())
    }

    /// DATA, of one letter.
    fn data(&mut self) -> Result<(), AllocError> {
        let stream = self.some_stream();
        let count = self.data_len();
        let end = self.numbers.below(4) == 0;
        let padded = self.numbers.below(8) == 0;
        let flags = if end { END_STREAM } else { 0 };
        if !padded {
            self.frame_header(count, DATA, flags, stream)?;
            return self.many("61", count);
        }
        let pad = self.numbers.below(20);
        let count = count.min(16_000);
        let length = count.wrapping_add(pad).wrapping_add(1);
        self.frame_header(length, DATA, flags | PADDED, stream)?;
        let word = format!(in self.alloc; "{pad:02x}")?;
        self.text.push_str(word.as_str())?;
        self.many("61", count)?;
        self.many("00", pad)
    }

    fn data_len(&mut self) -> u32 {
        let kind = self.numbers.below(8);
        let long = self.numbers.coin();
        match kind {
            0 => 0,
            1 => self.numbers.below(5_000),
            _ if self.heavy && long => LONGEST_PAYLOAD,
            _ => self.numbers.below(300),
        }
    }

    /// RST_STREAM.
    fn reset(&mut self) -> Result<(), AllocError> {
        let stream = self.some_stream();
        let code = self.numbers.below(14).to_be_bytes();
        self.frame(RST_STREAM, 0, stream, &code)
    }

    /// WINDOW_UPDATE.
    fn update(&mut self) -> Result<(), AllocError> {
        let whole = self.numbers.below(3) == 0;
        let any = self.some_stream();
        let stream = if whole { 0 } else { any };
        let seldom = self.numbers.below(8) == 0;
        let increment = match self.numbers.below(8) {
            0 if !whole || seldom => 0,
            1 if !whole || seldom => GREATEST_WINDOW.wrapping_sub(self.numbers.below(70_000)),
            _ => self.numbers.below(70_000).wrapping_add(1),
        };
        self.frame(WINDOW_UPDATE, 0, stream, &increment.to_be_bytes())
    }

    /// SETTINGS of up to two settings.
    fn settings(&mut self) -> Result<(), AllocError> {
        let mut payload = Vec::new(self.alloc);
        for _ in 0..self.numbers.below(3) {
            let (id, value) = self.setting();
            let value = if self.numbers.below(40) == 0 {
                self.numbers.next()
            } else {
                value
            };
            payload.extend_from_slice(&[0, id])?;
            payload.extend_from_slice(&value.to_be_bytes())?;
        }
        self.frame(SETTINGS, 0, 0, payload.as_slice())
    }

    /// A setting: its identifier and its value.
    fn setting(&mut self) -> (u8, u32) {
        match self.numbers.below(8) {
            0 => (1, self.numbers.below(9_000)),
            1 => (2, 0),
            2 => (3, self.numbers.below(100).wrapping_add(30)),
            3 | 4 => (4, self.initial_window()),
            5 => (5, self.numbers.below(1_000).wrapping_add(16_384)),
            6 => (6, self.numbers.below(100_000)),
            _ => (99, self.numbers.next()),
        }
    }

    fn initial_window(&mut self) -> u32 {
        match self.numbers.below(6) {
            0 => 0,
            1 => GREATEST_WINDOW.wrapping_sub(self.numbers.below(70_000)),
            _ => self.numbers.below(100_000),
        }
    }

    /// PING.
    fn ping(&mut self, flags: u8) -> Result<(), AllocError> {
        let octets = self.numbers.eight();
        self.frame(PING, flags, 0, &octets)
    }

    /// A frame that says nothing, or nothing to a server.
    fn without_meaning(&mut self) -> Result<(), AllocError> {
        let kind = self.numbers.below(6);
        let seldom = self.numbers.below(10) == 0;
        match kind {
            0 | 1 => {
                let stream = self.some_stream();
                self.frame(PRIORITY, 0, stream, &[0, 0, 0, 0, 16])
            }
            2 if self.server || seldom => self.frame(GOAWAY, 0, 0, &[0, 0, 0, 0, 0, 0, 0, 0, 33]),
            3 => self.frame(SETTINGS, ACK, 0, &[]),
            4 => self.ping(ACK),
            _ => {
                let kind = 10 + self.numbers.below(200) as u8;
                let stream = self.numbers.next();
                self.frame(kind, 255, stream, &[1, 2, 3])
            }
        }
    }

    /// Mostly PING; seldom a frame that breaks a rule of its layout, or of where it stands.
    fn seldom_broken(&mut self) -> Result<(), AllocError> {
        if self.numbers.below(12) != 0 {
            return self.ping(0);
        }
        let stream = self.some_stream();
        match self.numbers.below(10) {
            0 => self.frame(PUSH_PROMISE, END_HEADERS, stream, &[0, 0, 0, 2, 0x82]),
            1 => self.frame_header(16_385, DATA, 0, stream),
            2 => self.frame(CONTINUATION, END_HEADERS, stream, &[0x82]),
            3 => self.frame(RST_STREAM, 0, stream, &[0, 0, 8]),
            4 => self.frame(PING, 0, 0, &[1, 2, 3, 4, 5, 6, 7]),
            5 => self.frame(WINDOW_UPDATE, 0, stream, &[0, 0, 0, 1, 0]),
            6 => self.frame(SETTINGS, 0, 0, &[0, 1, 0, 0, 0]),
            7 => self.frame(SETTINGS, 0, stream, &[]),
            8 => self.frame(DATA, PADDED, stream, &[4, 0, 0, 0]),
            _ => {
                let [a, b, c, d, e, f, g, h] = self.numbers.eight();
                self.frame(a, b, 1, &[c, d, e, f, g, h])
            }
        }
    }

    /// A frame, as octets in hexadecimal digits, which are cut in two now and then, or joined to the last ones.
    fn frame(
        &mut self,
        kind: u8,
        flags: u8,
        stream: u32,
        payload: &[u8],
    ) -> Result<(), AllocError> {
        let length = payload.len().min(16_384) as u32;
        self.frame_header(length, kind, flags, stream)?;
        let cut = self.numbers.below(64) as usize;
        for (at, octet) in payload.iter().enumerate() {
            let blank = if at == cut { " " } else { "" };
            let digits = format!(in self.alloc; "{blank}{octet:02x}")?;
            self.text.push_str(digits.as_str())?;
        }
        Ok(())
    }

    /// The header of a frame.
    fn frame_header(
        &mut self,
        length: u32,
        kind: u8,
        flags: u8,
        stream: u32,
    ) -> Result<(), AllocError> {
        let apart = self.numbers.below(4) != 0;
        let blank = if apart || !self.joins { " " } else { "" };
        let cut = if self.numbers.below(4) == 0 { " " } else { "" };
        let digits = format!(in self.alloc;
            "{blank}{length:06x}{kind:02x}{cut}{flags:02x}{stream:08x}"
        )?;
        self.joins = true;
        self.text.push_str(digits.as_str())
    }

    /// So many octets, which the digits are.
    fn many(&mut self, digits: &str, count: u32) -> Result<(), AllocError> {
        if count == 0 {
            return Ok(());
        }
        let word = format!(in self.alloc; "{digits}*{count}")?;
        self.word(word.as_str())
    }

    /// A call with two numbers.
    fn word_of(&mut self, name: &str, stream: u32, number: u32) -> Result<(), AllocError> {
        let word = format!(in self.alloc; "{name}:{stream}:{number}")?;
        self.word(word.as_str())
    }

    fn word(&mut self, word: &str) -> Result<(), AllocError> {
        self.joins = false;
        self.text.push_str(" ")?;
        self.text.push_str(word)
    }
}
