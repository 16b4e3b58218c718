//! One direction of a call: header list, octets, end, as they are sent and as they arrive.

use hpack::Headers;
use std::alloc::{AllocError, Global};

/// What one end sends on a stream, and how much of it the other one has.
#[derive(Drop)]
pub struct Body {
    /// The letter of its header lists; its octets begin with it.
    pub letter: u8,
    /// How many octets of DATA it has.
    pub len: u32,
    /// It ends with trailers.
    pub trailers: bool,
    /// Its header list was put.
    pub begun: bool,
    /// So many octets were put.
    pub sent: u32,
    /// Its end was put.
    pub finished: bool,
    /// Its header list arrived.
    pub head: bool,
    /// So many octets arrived.
    pub got: u32,
    /// Its end arrived.
    pub ended: bool,
    /// So many octets are to be given back.
    pub owed: u32,
}

impl Body {
    /// One of which nothing was sent.
    pub fn new(letter: u8, len: u32, trailers: bool) -> Body {
        Body {
            letter,
            len,
            trailers,
            begun: false,
            sent: 0,
            finished: false,
            head: false,
            got: 0,
            ended: false,
            owed: 0,
        }
    }

    /// The octet at this place.
    fn octet(&self, at: u32) -> u8 {
        let mixed = at.wrapping_mul(2_654_435_761) >> 24;
        (mixed as u8).wrapping_add(self.letter)
    }

    /// The octets that are sent next, so many at most.
    pub fn piece(&self, alloc: Global, most: u32) -> Result<Vec<u8>, AllocError> {
        let mut octets = Vec::new(alloc);
        let end = self.sent.saturating_add(most).min(self.len);
        for at in self.sent..end {
            octets.push(self.octet(at))?;
        }
        Ok(octets)
    }

    /// A header list arrives; whether it is the one that was sent.
    pub fn take_head(&mut self, headers: &Headers, end: bool) -> bool {
        let first = !self.head;
        self.head = true;
        let wanted = if first {
            !end && self.got == 0
        } else {
            self.trailers && end && self.got == self.len
        };
        let open = !self.ended;
        self.ended = self.ended || end;
        wanted && open && self.has_letter(headers)
    }

    /// Whether the last field of a list is the letter.
    fn has_letter(&self, headers: &Headers) -> bool {
        match headers.as_slice().last() {
            None => false,
            Some(last) => {
                last.name.as_slice() == b"letter".as_slice()
                    && last.value.as_slice() == [self.letter].as_slice()
            }
        }
    }

    /// Octets arrive; whether they are those that were sent next.
    pub fn take_octets(&mut self, octets: &[u8], end: bool) -> bool {
        let mut same = self.head && !self.ended;
        for octet in octets {
            same = same && self.got < self.len && *octet == self.octet(self.got);
            self.got = self.got.saturating_add(1);
        }
        self.ended = self.ended || end;
        same && (!end || (!self.trailers && self.got == self.len))
    }

    /// Whether all of it has arrived.
    pub fn is_whole(&self) -> bool {
        self.ended && self.got == self.len
    }
}
