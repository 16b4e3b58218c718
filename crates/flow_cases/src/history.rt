//! The windows as plain sums: each question goes over all calls again, from the first on.

use std::alloc::{AllocError, Global};

/// What every window is at first, in octets.
const FIRST: i64 = 65_535;

/// The greatest window, in octets.
const GREATEST: i64 = 2_147_483_647;

/// What was counted of a call.
#[derive(Clone, Copy)]
enum Note {
    Opened(u32),
    Closed(u32),
    /// Octets that arrived on a stream; whether they were counted on it too.
    Arrived(u32, u32, bool),
    Given(u32),
    Sent(u32, u32),
    Increment(u32, u32),
    Setting(u32),
}

/// A fault: of the connection's window, or of a stream's.
#[derive(Clone, Copy, PartialEq, Eq)]
pub enum Fault {
    /// None.
    No,
    /// Of the connection's window.
    Connection,
    /// Of a stream's window.
    Stream,
}

/// All calls so far.
#[derive(Drop)]
pub struct History {
    notes: Vec<Note>,
}

impl History {
    /// No call.
    pub fn new(alloc: Global) -> History {
        History {
            notes: Vec::new(alloc),
        }
    }

    /// Whether the stream was opened, and not closed since.
    pub fn is_open(&self, asked: u32) -> bool {
        let mut open = false;
        for note in &self.notes {
            match *note {
                Note::Opened(stream) if stream == asked => open = true,
                Note::Closed(stream) if stream == asked => open = false,
                _ => {}
            }
        }
        open
    }

    /// How many streams are open, of those below a number.
    pub fn open_below(&self, number: u32) -> u32 {
        let mut count: u32 = 0;
        for stream in 0..number {
            if self.is_open(stream) {
                count = count.saturating_add(1);
            }
        }
        count
    }

    /// The peer's last setting.
    fn setting(&self) -> i64 {
        let mut setting = FIRST;
        for note in &self.notes {
            if let Note::Setting(value) = *note {
                setting = i64::from(value);
            }
        }
        setting
    }

    /// The window to send of a stream, or of the connection at 0; 0 where the stream is not open.
    pub fn send_window(&self, asked: u32) -> i64 {
        if asked == 0 {
            return self.connection_send_window();
        }
        if !self.is_open(asked) {
            return 0;
        }
        let mut credit: i64 = 0;
        for note in &self.notes {
            match *note {
                Note::Opened(stream) if stream == asked => credit = 0,
                Note::Increment(stream, octets) if stream == asked => {
                    credit = credit.saturating_add(i64::from(octets));
                }
                Note::Sent(stream, octets) if stream == asked => {
                    credit = credit.saturating_sub(i64::from(octets));
                }
                _ => {}
            }
        }
        self.setting().saturating_add(credit)
    }

    /// The connection's window to send.
    fn connection_send_window(&self) -> i64 {
        let mut window = FIRST;
        for note in &self.notes {
            match *note {
                Note::Increment(0, octets) => window = window.saturating_add(i64::from(octets)),
                Note::Sent(_stream, octets) => window = window.saturating_sub(i64::from(octets)),
                _ => {}
            }
        }
        window
    }

    /// The window to receive of a stream, or of the connection at 0; 0 where the stream is not open.
    pub fn receive_window(&self, asked: u32) -> i64 {
        if asked == 0 {
            return self.connection_receive_window();
        }
        if !self.is_open(asked) {
            return 0;
        }
        let mut window = FIRST;
        for note in &self.notes {
            match *note {
                Note::Opened(stream) if stream == asked => window = FIRST,
                Note::Arrived(stream, octets, true) if stream == asked => {
                    window = window.saturating_sub(i64::from(octets));
                }
                _ => {}
            }
        }
        window
    }

    /// The connection's window to receive.
    fn connection_receive_window(&self) -> i64 {
        let mut window = FIRST;
        for note in &self.notes {
            match *note {
                Note::Given(octets) => window = window.saturating_add(i64::from(octets)),
                Note::Arrived(_stream, octets, _on) => {
                    window = window.saturating_sub(i64::from(octets));
                }
                _ => {}
            }
        }
        window
    }

    /// How many octets may be sent.
    pub fn may_send(&self, stream: u32) -> i64 {
        if stream == 0 || !self.is_open(stream) {
            return 0;
        }
        self.send_window(stream).min(self.send_window(0)).max(0)
    }

    /// Opens a stream where it is not 0 and not open.
    pub fn open(&mut self, stream: u32) -> Result<(), AllocError> {
        if stream > 0 && !self.is_open(stream) {
            self.notes.push(Note::Opened(stream))?;
        }
        Ok(())
    }

    /// Closes a stream.
    pub fn close(&mut self, stream: u32) -> Result<(), AllocError> {
        self.notes.push(Note::Closed(stream))?;
        Ok(())
    }

    /// Octets that arrived.
    pub fn received(&mut self, stream: u32, octets: u32) -> Result<Fault, AllocError> {
        if i64::from(octets) > self.receive_window(0) {
            return Ok(Fault::Connection);
        }
        let short = self.is_open(stream) && i64::from(octets) > self.receive_window(stream);
        self.notes.push(Note::Arrived(stream, octets, !short))?;
        Ok(if short { Fault::Stream } else { Fault::No })
    }

    /// Octets that are given back, and the increment due.
    pub fn resolve(&mut self, octets: u32) -> Result<i64, AllocError> {
        let room = GREATEST.saturating_sub(self.receive_window(0));
        let due = i64::from(octets).min(room);
        let given = u32::try_from(due).unwrap_or(0);
        self.notes.push(Note::Given(given))?;
        Ok(due)
    }

    /// Octets that are sent on an open stream.
    pub fn sent(&mut self, stream: u32, octets: u32) -> Result<(), AllocError> {
        self.notes.push(Note::Sent(stream, octets))?;
        Ok(())
    }

    /// An increment from the peer.
    pub fn update(&mut self, stream: u32, increment: u32) -> Result<Fault, AllocError> {
        let window = self
            .send_window(stream)
            .saturating_add(i64::from(increment));
        if stream == 0 {
            if window > GREATEST {
                return Ok(Fault::Connection);
            }
        } else if !self.is_open(stream) {
            return Ok(Fault::No);
        } else if window > GREATEST {
            return Ok(Fault::Stream);
        }
        self.notes.push(Note::Increment(stream, increment))?;
        Ok(Fault::No)
    }

    /// A setting from the peer; only streams below `number` are open.
    pub fn initial(&mut self, value: u32, number: u32) -> Result<Fault, AllocError> {
        let change = i64::from(value).saturating_sub(self.setting());
        let mut passes = i64::from(value) > GREATEST;
        for stream in 1..number {
            if self.is_open(stream) && self.send_window(stream).saturating_add(change) > GREATEST {
                passes = true;
            }
        }
        if passes {
            return Ok(Fault::Stream);
        }
        self.notes.push(Note::Setting(value))?;
        Ok(Fault::No)
    }
}
