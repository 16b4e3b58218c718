//! Calls of a hub of two channels each way.
ghost use Rattle.std.specs.Prelude.{◌≡◌, ◌<◌, length};

use crate::numbers::{Numbers, number, octet};
use endpoint_hub::{AttachStop, Hub, PutStop, SESSION_VALUES};
use esi_base::{NoMemory, Word};
use std::alloc::{AllocError, Global};
use std::marker::Model;

/// How many channels each side has.
const CHANNELS: u32 = 2;

/// A call, with its numbers in the order in which the hub takes them.
#[derive(Clone, Copy)]
pub enum HubCall {
    /// `put CHANNEL CONN STREAM OCTET`
    Put {
        channel: u32,
        conn: u32,
        stream: u32,
        octet: u32,
    },
    /// `front CHANNEL`
    Front(u32),
    /// `pop CHANNEL`
    Pop(u32),
    /// `has_room CHANNEL`
    HasRoom(u32),
    /// `push CHANNEL OCTET`
    Push(u32, u32),
    /// `hand CHANNEL`
    Hand(u32),
    /// `attach CHANNEL CONN STREAM`
    Attach {
        channel: u32,
        conn: u32,
        stream: u32,
    },
    /// `close CHANNEL`
    Close(u32),
    /// `has_stream CHANNEL`
    HasStream(u32),
    /// `next_cycle`
    NextCycle,
    /// `journal`: its cycles, and how many entries each of its lists has
    Journal,
    /// `taken INDEX`: an entry of the journal
    Taken(u32),
    /// `handed INDEX`: an entry of the journal
    Handed(u32),
    /// `attached INDEX`: an entry of the journal
    Attached(u32),
    /// `fill_session`: puts and pops on channel 0 until one is refused
    FillSession,
}

impl HubCall {
    /// The call of this name; None where there is none.
    pub fn read(name: &str, numbers: Numbers) -> Option<HubCall> {
        match name {
            "put" => Some(HubCall::Put {
                channel: numbers.first,
                conn: numbers.second,
                stream: numbers.third,
                octet: numbers.fourth,
            }),
            "front" => Some(HubCall::Front(numbers.first)),
            "pop" => Some(HubCall::Pop(numbers.first)),
            "has_room" => Some(HubCall::HasRoom(numbers.first)),
            "push" => Some(HubCall::Push(numbers.first, numbers.second)),
            "hand" => Some(HubCall::Hand(numbers.first)),
            "attach" => Some(HubCall::Attach {
                channel: numbers.first,
                conn: numbers.second,
                stream: numbers.third,
            }),
            "close" => Some(HubCall::Close(numbers.first)),
            "has_stream" => Some(HubCall::HasStream(numbers.first)),
            "next_cycle" => Some(HubCall::NextCycle),
            "journal" => Some(HubCall::Journal),
            "taken" => Some(HubCall::Taken(numbers.first)),
            "handed" => Some(HubCall::Handed(numbers.first)),
            "attached" => Some(HubCall::Attached(numbers.first)),
            "fill_session" => Some(HubCall::FillSession),
            _ => None,
        }
    }
}

/// A hub of two channels each way. Contracts see what it holds.
#[derive(Drop)]
pub struct HubCase {
    hub: Hub,
}

impl Model for HubCase {
    ghost use Rattle.std.specs.Prelude.{◌≡◌, length};
    ghost use Rattle.endpoint_hub.specs.Holdings.{Holdings};

    ghost Value = { Holdings };

    ghost view = { λ c. c.hub };

    ghost invariant = { λ c. (length c.hub.to_server ≡ 2) × (length c.hub.to_client ≡ 2) };
}

impl HubCase {
    /// A new hub.
    pub fn new(alloc: Global) -> Result<HubCase, NoMemory> {
        Ok(HubCase {
            hub: Hub::new(alloc, CHANNELS, CHANNELS)?,
        })
    }

    /// Makes a call, and gives its answer as text.
    pub fn answer(&mut self, alloc: Global, call: HubCall) -> Result<String, AllocError> {
        match call {
            HubCall::Put {
                channel,
                conn,
                stream,
                octet: number,
            } => String::from_str(alloc, self.put(channel, conn, stream, octet(number))),
            HubCall::Front(channel) => word_text(alloc, self.front(channel)),
            HubCall::Pop(channel) => word_text(alloc, self.pop(channel)),
            HubCall::HasRoom(channel) => {
                let room = self.has_room(channel);
                format!(in alloc; "{room}")
            }
            HubCall::Push(channel, number) => {
                String::from_str(alloc, self.push(channel, octet(number)))
            }
            HubCall::Hand(channel) => match self.hand(channel) {
                Ok(word) => word_text(alloc, word),
                Err(NoMemory) => String::from_str(alloc, "out of memory"),
            },
            HubCall::Attach {
                channel,
                conn,
                stream,
            } => String::from_str(alloc, self.attach(channel, conn, stream)),
            HubCall::Close(channel) => String::from_str(alloc, self.close(channel)),
            HubCall::HasStream(channel) => {
                let has_stream = self.has_stream(channel);
                format!(in alloc; "{has_stream}")
            }
            HubCall::NextCycle => {
                let cycle = self.next_cycle();
                format!(in alloc; "cycle {cycle}")
            }
            HubCall::Journal => self.journal_text(alloc),
            HubCall::Taken(index) => self.taken_text(alloc, index),
            HubCall::Handed(index) => self.handed_text(alloc, index),
            HubCall::Attached(index) => self.attached_text(alloc, index),
            HubCall::FillSession => {
                let count = self.fill_session();
                format!(in alloc; "{count} taken")
            }
        }
    }

    #[tactic(auto, using(endpoint_hub::specs::RingLemmas::calls_of_rings))]
    fn put(&mut self, channel: u32, conn: u32, stream: u32, word: Word) -> &'static str {
        if channel >= CHANNELS {
            return "no such channel";
        }
        match self.hub.put(channel, conn, stream, word) {
            Ok(()) => "taken",
            Err(PutStop::SessionFull) => "session full",
            Err(PutStop::NoRoom) => "no room",
            Err(PutStop::NoMemory) => "out of memory",
        }
    }

    fn front(&self, channel: u32) -> Option<Word> {
        if channel >= CHANNELS {
            return None;
        }
        self.hub.front(channel)
    }

    #[tactic(auto, using(endpoint_hub::specs::RingLemmas::calls_of_rings))]
    fn pop(&mut self, channel: u32) -> Option<Word> {
        if channel >= CHANNELS {
            return None;
        }
        let front = self.hub.front(channel)?;
        self.hub.pop(channel);
        Some(front)
    }

    fn has_room(&self, channel: u32) -> bool {
        channel < CHANNELS && self.hub.has_room(channel)
    }

    #[tactic(auto, using(endpoint_hub::specs::RingLemmas::calls_of_rings))]
    fn push(&mut self, channel: u32, word: Word) -> &'static str {
        if channel >= CHANNELS || !self.hub.has_room(channel) {
            return "no room";
        }
        self.hub.push(channel, word);
        "pushed"
    }

    #[tactic(auto, using(endpoint_hub::specs::RingLemmas::calls_of_rings))]
    fn hand(&mut self, channel: u32) -> Result<Option<Word>, NoMemory> {
        if channel >= CHANNELS {
            return Ok(None);
        }
        self.hub.hand(channel)
    }

    #[tactic(auto, using(endpoint_hub::specs::RingLemmas::calls_of_rings))]
    fn attach(&mut self, channel: u32, conn: u32, stream: u32) -> &'static str {
        if channel >= CHANNELS {
            return "no such channel";
        }
        match self.hub.attach(channel, conn, stream) {
            Ok(()) => "attached",
            Err(AttachStop::Attached) => "attached before",
            Err(AttachStop::NoMemory) => "out of memory",
        }
    }

    #[tactic(auto, using(endpoint_hub::specs::RingLemmas::calls_of_rings))]
    fn close(&mut self, channel: u32) -> &'static str {
        if channel >= CHANNELS {
            return "no such channel";
        }
        self.hub.close(channel);
        "closed"
    }

    fn has_stream(&self, channel: u32) -> bool {
        channel < CHANNELS && self.hub.has_stream(channel)
    }

    /// Ends the cycle that runs, and gives the number of the next one.
    fn next_cycle(&mut self) -> u64 {
        if self.hub.journal().cycles < u64::MAX {
            self.hub.next_cycle();
        }
        self.hub.journal().cycles
    }

    fn journal_text(&self, alloc: Global) -> Result<String, AllocError> {
        let journal = self.hub.journal();
        let cycles = journal.cycles;
        let taken = journal.taken.len();
        let handed = journal.handed.len();
        let attached = journal.attached.len();
        format!(in alloc; "cycles {cycles} taken {taken} handed {handed} attached {attached}")
    }

    fn taken_text(&self, alloc: Global, index: u32) -> Result<String, AllocError> {
        let Some(taken) = self.hub.journal().taken.get(index as usize) else {
            return String::from_str(alloc, "none");
        };
        let cycle = taken.cycle;
        let channel = taken.channel;
        let conn = taken.conn;
        let stream = taken.stream;
        let word = number(taken.word);
        format!(in alloc; "cycle {cycle} channel {channel} conn {conn} stream {stream} word {word}")
    }

    fn handed_text(&self, alloc: Global, index: u32) -> Result<String, AllocError> {
        let Some(handed) = self.hub.journal().handed.get(index as usize) else {
            return String::from_str(alloc, "none");
        };
        let cycle = handed.cycle;
        let channel = handed.channel;
        format!(in alloc; "cycle {cycle} channel {channel}")
    }

    fn attached_text(&self, alloc: Global, index: u32) -> Result<String, AllocError> {
        let Some(attached) = self.hub.journal().attached.get(index as usize) else {
            return String::from_str(alloc, "none");
        };
        let channel = attached.channel;
        let conn = attached.conn;
        let stream = attached.stream;
        format!(in alloc; "channel {channel} conn {conn} stream {stream}")
    }

    /// Puts and pops on channel 0 until a value is refused, and counts those that were taken.
    fn fill_session(&mut self) -> usize {
        for value in 0..SESSION_VALUES {
            if self.put(0, 0, 0, octet((value % 256) as u32)) != "taken" {
                return value;
            }
            let _front = self.pop(0);
        }
        SESSION_VALUES
    }
}

/// A word as a number, as text.
fn word_text(alloc: Global, word: Option<Word>) -> Result<String, AllocError> {
    match word {
        Some(word) => {
            let number = number(word);
            format!(in alloc; "{number}")
        }
        None => String::from_str(alloc, "none"),
    }
}
