//! The rings of all channels and the journal.
ghost use Rattle.std.specs.Prelude.{◌≡◌, ◌↔◌, ◌+◌, ◌-◌, ◌^◌, ◌<◌, ◌≤◌, [], false, length, replicate, slice_index_or, IfOk, IsTrue, OnOk, OnErr, IsErrOf, OnSome, IfNone};
ghost use Rattle.cycle_rules.specs.Rings.{has_room, ring_at, front_of};
ghost use Rattle.endpoint_hub.specs.declared.hub.AttachStop.TheVariants.{NoMemory as attach_no_memory};
ghost use Rattle.endpoint_hub.specs.declared.hub.PutStop.TheVariants.{NoMemory as put_no_memory};
ghost use Rattle.endpoint_hub.specs.Holdings.{IsNew, Takes, Pops, Pushes, Hands, Attaches, Closes, BeginsCycle, is_noted, was_attached};

use crate::journal::{Attachment, Handed, Journal, Taken};
use crate::limits::SIDE_CHANNELS;
use crate::ring::Ring;
use cycle_rules::{RING_VALUES, SESSION_VALUES};
use esi_base::{List, NoMemory, Word};
use std::alloc::Global;
use std::marker::Model;

/// Why a value was not taken.
#[derive(Clone, Copy, Debug, PartialEq, Eq)]
pub enum PutStop {
    /// The session has taken as many values as it ever takes.
    SessionFull,
    /// The channel's ring is full.
    NoRoom,
    /// Out of memory.
    NoMemory,
}

impl From<NoMemory> for PutStop {
    ghost from_gives = { λ _ e. e ≡ put_no_memory };

    fn from(_error: NoMemory) -> PutStop {
        PutStop::NoMemory
    }
}

/// Why a stream was not attached.
#[derive(Clone, Copy, Debug, PartialEq, Eq)]
pub enum AttachStop {
    /// A stream was attached to the channel before, in this session.
    Attached,
    /// Out of memory.
    NoMemory,
}

impl From<NoMemory> for AttachStop {
    ghost from_gives = { λ _ e. e ≡ attach_no_memory };

    fn from(_error: NoMemory) -> AttachStop {
        AttachStop::NoMemory
    }
}

/// The rings of all channels, a side each for the values that go to the circuit and for those that
/// come from it, whether each to-client channel has a stream, and the journal. Contracts see each ring
/// as the list of the words in it, the oldest first.
#[derive(Drop)]
pub struct Hub {
    to_server: Vec<Ring>,
    to_client: Vec<Ring>,
    /// Of each to-client channel, whether a stream was attached that has not ended.
    has_stream: List<bool>,
    journal: Journal,
}

impl Model for Hub {
    ghost use Rattle.std.specs.Prelude.{◌≡◌, ◌≤◌, length};
    ghost use Rattle.endpoint_hub.specs.Holdings.{Holdings};
    ghost use Rattle.cycle_rules.specs.declared.limits.TheConstants.{SESSION_VALUES};
    ghost use Rattle.endpoint_hub.specs.declared.limits.TheConstants.{SIDE_CHANNELS};

    ghost Value = { Holdings };

    ghost view = { λ h. record { to_server = h.to_server.items; to_client = h.to_client.items; has_stream = h.has_stream; journal = h.journal } };

    ghost invariant = { λ h. (length h.to_server.items ≤ SIDE_CHANNELS) × (length h.to_client.items ≤ SIDE_CHANNELS) × (length h.has_stream ≡ length h.to_client.items) × (length h.journal.taken ≤ SESSION_VALUES) };
}

impl Hub {
    /// A hub with an empty ring for each channel, before the first cycle. Each side has at most
    /// `SIDE_CHANNELS` channels.
    pub fn new(alloc: Global, to_server: u32, to_client: u32) -> Result<Hub, NoMemory>
        requires to_server_count { to_server ≤ SIDE_CHANNELS }
        requires to_client_count { to_client ≤ SIDE_CHANNELS }
        ensures { IfOk result (λ hub. IsNew hub to_server to_client) }
    {
        Ok(Hub {
            to_server: empty_rings(alloc, to_server)?,
            to_client: empty_rings(alloc, to_client)?,
            has_stream: no_streams(alloc, to_client)?,
            journal: Journal {
                cycles: 0,
                taken: List::new(alloc),
                handed: List::new(alloc),
                attached: List::new(alloc),
            },
        })
    }

    /// Takes a value into the ring of a to-server channel that the hub has: it joins the end of the
    /// ring, and the journal notes it with the cycle that runs, its connection and its stream. A value
    /// that is refused changes nothing. Memory is taken only where the session and the ring have room
    /// for the value.
    pub fn put(&mut self, channel: u32, conn: u32, stream: u32, word: Word) -> Result<(), PutStop>
        requires { channel < length self.old.to_server }
        ensures taken { OnOk result (Takes self.old self.new channel conn stream word) }
        ensures session_room { OnOk result (length self.old.journal.taken < SESSION_VALUES) }
        ensures room { OnOk result (length (ring_at self.old.to_server channel) < RING_VALUES) }
        ensures session_full { IsErrOf result PutStop.SessionFull
            ↔ (length self.old.journal.taken ≡ SESSION_VALUES) }
        ensures no_room { IsErrOf result PutStop.NoRoom
            ↔ ((length self.old.journal.taken < SESSION_VALUES)
            × (length (ring_at self.old.to_server channel) ≡ RING_VALUES)) }
        ensures no_memory_session { IsErrOf result PutStop.NoMemory → length self.old.journal.taken < SESSION_VALUES }
        ensures no_memory_room { IsErrOf result PutStop.NoMemory
            → length (ring_at self.old.to_server channel) < RING_VALUES }
        ensures refused { OnErr result (self.new ≡ self.old) }
    {
        if self.journal.taken.len() >= SESSION_VALUES {
            return Err(PutStop::SessionFull);
        }
        let ring = &mut self.to_server[channel as usize];
        if ring.len() >= RING_VALUES {
            return Err(PutStop::NoRoom);
        }
        let cycle = self.journal.cycles;
        let taken = Taken {
            cycle,
            channel,
            conn,
            stream,
            word,
        };
        self.journal.taken.add(taken)?;
        ring.push(word);
        Ok(())
    }

    /// The oldest word in the ring of a to-server channel that the hub has; None exactly where the ring
    /// is empty. It takes no memory.
    pub fn front(&self, channel: u32) -> Option<Word>
        requires { channel < length self.now.to_server }
        ensures word { result ≡ front_of self.now.to_server channel }
        ensures within { length (ring_at self.now.to_server channel) ≤ RING_VALUES }
    {
        self.to_server[channel as usize].front()
    }

    /// Removes the oldest word from the ring of a to-server channel, which is not empty. It takes no
    /// memory.
    pub fn pop(&mut self, channel: u32)
        requires channel { channel < length self.old.to_server }
        requires word { 0 < length (ring_at self.old.to_server channel) }
        ensures { Pops self.old self.new channel }
    {
        let ring = &mut self.to_server[channel as usize];
        let _front = ring.pop();
    }

    /// Whether the ring of a to-client channel that the hub has holds fewer words than it can. It
    /// takes no memory.
    pub fn has_room(&self, channel: u32) -> bool
        requires { channel < length self.now.to_client }
        ensures room { result ≡ has_room (ring_at self.now.to_client channel) }
        ensures within { length (ring_at self.now.to_client channel) ≤ RING_VALUES }
    {
        self.to_client[channel as usize].len() < RING_VALUES
    }

    /// Adds a word at the end of the ring of a to-client channel, which has room. It takes no memory.
    pub fn push(&mut self, channel: u32, word: Word)
        requires channel { channel < length self.old.to_client }
        requires room { length (ring_at self.old.to_client channel) < RING_VALUES }
        ensures { Pushes self.old self.new channel word }
    {
        let ring = &mut self.to_client[channel as usize];
        ring.push(word);
    }

    /// Hands out the oldest word in the ring of a to-client channel that the hub has, and notes it with
    /// the cycle that runs; None exactly where the ring is empty. Memory is taken only where a word
    /// stands in the ring.
    pub fn hand(&mut self, channel: u32) -> Result<Option<Word>, NoMemory>
        requires { channel < length self.old.to_client }
        ensures word { IfOk result (λ word. word ≡ front_of self.old.to_client channel) }
        ensures handed { IfOk result (λ word. OnSome word (Hands self.old self.new channel)) }
        ensures empty { IfOk result (λ word. IfNone word (self.new ≡ self.old)) }
        ensures some { OnErr result (0 < length (ring_at self.old.to_client channel)) }
        ensures refused { OnErr result (self.new ≡ self.old) }
    {
        let ring = &mut self.to_client[channel as usize];
        if ring.len() == 0 {
            return Ok(None);
        }
        let cycle = self.journal.cycles;
        self.journal.handed.add(Handed { cycle, channel })?;
        Ok(ring.pop())
    }

    /// Attaches a stream to a to-client channel that the hub has, and notes it; refused as `Attached`
    /// exactly where one was attached to the channel in this session, whether or not it has ended. A
    /// refusal changes nothing. Memory is taken only where none was attached.
    pub fn attach(&mut self, channel: u32, conn: u32, stream: u32) -> Result<(), AttachStop>
        requires { channel < length self.old.to_client }
        ensures attached { OnOk result (Attaches self.old self.new channel conn stream) }
        ensures free { OnOk result (was_attached self.old.journal channel ≡ false) }
        ensures already { IsErrOf result AttachStop.Attached ↔ IsTrue (was_attached self.old.journal channel) }
        ensures no_memory { IsErrOf result AttachStop.NoMemory → was_attached self.old.journal channel ≡ false }
        ensures refused { OnErr result (self.new ≡ self.old) }
    {
        if is_noted(self.journal.attached.as_slice(), channel) {
            return Err(AttachStop::Attached);
        }
        let attachment = Attachment {
            channel,
            conn,
            stream,
        };
        self.journal.attached.add(attachment)?;
        let _none_before = self.has_stream.set(channel as usize, true);
        Ok(())
    }

    /// Notes that the stream of a to-client channel that the hub has has ended. The journal keeps that it
    /// was attached.
    pub fn close(&mut self, channel: u32)
        requires { channel < length self.old.to_client }
        ensures { Closes self.old self.new channel }
    {
        let _before = self.has_stream.set(channel as usize, false);
    }

    /// Whether a stream was attached to a to-client channel that the hub has, and has not ended. It takes
    /// no memory.
    pub fn has_stream(&self, channel: u32) -> bool
        requires { channel < length self.now.to_client }
        ensures { result ≡ slice_index_or self.now.has_stream channel false }
    {
        self.has_stream.as_slice()[channel as usize]
    }

    /// Ends the cycle that runs, of which fewer than 2^64 - 1 have ended.
    pub fn next_cycle(&mut self)
        requires { self.old.journal.cycles < 2 ^ 64 - 1 }
        ensures { BeginsCycle self.old self.new }
    {
        self.journal.cycles += 1;
    }

    /// What the session has noted so far.
    pub fn journal(&self) -> &Journal
        ensures journal { result.now ≡ self.now.journal }
        ensures within { length result.now.taken ≤ SESSION_VALUES }
    {
        &self.journal
    }
}

/// As many empty rings as are asked for.
fn empty_rings(alloc: Global, count: u32) -> Result<Vec<Ring>, NoMemory>
    ensures { IfOk result (λ rings. rings.items ≡ replicate count []) }
{
    let mut rings = Vec::with_capacity(alloc, count as usize)?;
    for made in 0..count {
        rings.push(Ring::new(alloc)?)?;
    }
    Ok(rings)
}

/// As many channels without a stream as are asked for.
fn no_streams(alloc: Global, count: u32) -> Result<List<bool>, NoMemory>
    ensures { IfOk result (λ flags. flags ≡ replicate count false) }
{
    let mut flags = List::new(alloc);
    for made in 0..count {
        flags.add(false)?;
    }
    Ok(flags)
}

/// Whether a stream is noted as attached to the channel.
fn is_noted(attached: &[Attachment], channel: u32) -> bool
    ensures { result ≡ is_noted attached.now channel }
{
    attached
        .iter()
        .any(|attachment| attachment.channel == channel)
}
