//! The rings of a pipe, one each way, over a hub.
ghost use Rattle.std.specs.Prelude.{◌≡◌, ◌-◌, ◌^◌, ◌<◌, length, true, false, if◌then◌else◌, IfOk, OnErr};
ghost use Rattle.cycle_rules.specs.Lists.{first};
ghost use Rattle.cycle_rules.specs.Rings.{has_room};
ghost use Rattle.pipe_cells.specs.PipeRings.{may_take, with_take, with_pop, with_push, with_hand, with_cycle};

use cycle_rules::Transfer;
use endpoint_hub::{Hub, PutStop};
use esi_base::{List, NoMemory, Word};
use std::alloc::Global;
use std::marker::Model;

/// The number of the one channel on each side.
const CHANNEL: u32 = 0;

/// The rings of a pipe and what was taken and handed through them. Contracts see the values in each ring, the oldest
/// first, the cycles that ended, and the values taken and handed.
#[derive(Drop)]
pub struct Ports {
    hub: Hub,
    handed: List<Transfer>,
}

impl Model for Ports {
    ghost use Rattle.std.specs.Prelude.{◌≡◌, map, length};
    ghost use Rattle.cycle_rules.specs.Rings.{ring_at};
    ghost use Rattle.endpoint_hub.specs.Entries.{transfer_of};
    ghost use Rattle.pipe_cells.specs.PipeRings.{PipeRings};

    ghost Value = { PipeRings };

    ghost view = { λ p. record { entering = ring_at p.hub.to_server 0; leaving = ring_at p.hub.to_client 0; cycles = p.hub.journal.cycles; taken = map transfer_of p.hub.journal.taken; handed = p.handed } };

    ghost invariant = { λ p. (length p.hub.to_server ≡ 1) × (length p.hub.to_client ≡ 1) };
}

impl Ports {
    ghost use Rattle.pipe_cells.specs.PipeRings.{new_rings};

    /// Rings with nothing in them, before the first cycle.
    pub fn new(alloc: Global) -> Result<Ports, NoMemory>
        ensures { IfOk result (λ ports. ports ≡ new_rings) }
    {
        Ok(Ports {
            hub: Hub::new(alloc, 1, 1)?,
            handed: List::new(alloc),
        })
    }

    /// Takes a value, if the session and the ring have room for it, and says whether they had. Memory is
    /// taken only where they have; where it runs out, nothing changes.
    pub fn put(&mut self, word: Word) -> Result<bool, NoMemory>
        ensures room { IfOk result (λ was_taken. was_taken ≡ may_take self.old) }
        ensures taken { IfOk result (λ was_taken. self.new ≡ (if was_taken then with_take self.old word else self.old)) }
        ensures no_memory { OnErr result (may_take self.old ≡ true) }
        ensures refused { OnErr result (self.new ≡ self.old) }
    {
        match self.hub.put(CHANNEL, 0, 0, word) {
            Ok(()) => Ok(true),
            Err(PutStop::SessionFull) => Ok(false),
            Err(PutStop::NoRoom) => Ok(false),
            Err(PutStop::NoMemory) => Err(NoMemory),
        }
    }

    /// The value that the ring on the way in offers: its oldest.
    pub fn front(&self) -> Option<Word>
        ensures { result ≡ first self.now.entering }
    {
        self.hub.front(CHANNEL)
    }

    /// The ring on the way in loses its oldest value where the circuit takes it.
    pub fn leave(&mut self, ready: bool)
        ensures { self.new ≡ with_pop self.old ready }
    {
        if ready && self.hub.front(CHANNEL).is_some() {
            self.hub.pop(CHANNEL);
        }
    }

    /// Whether the ring on the way out has room.
    pub fn has_room(&self) -> bool
        ensures { result ≡ has_room self.now.leaving }
    {
        self.hub.has_room(CHANNEL)
    }

    /// The word that the circuit offers, if it does, joins the ring on the way out where that has room.
    pub fn enter(&mut self, word: Option<Word>)
        ensures { self.new ≡ with_push self.old word }
    {
        if let Some(word) = word
            && self.hub.has_room(CHANNEL)
        {
            self.hub.push(CHANNEL, word);
        }
    }

    /// Hands out the oldest value of the ring on the way out, if there is one and the switch is on.
    /// Memory is taken only there.
    pub fn hand(&mut self, is_on: bool) -> Result<(), NoMemory>
        ensures handed { IfOk result (λ _. self.new ≡ with_hand is_on self.old) }
        ensures no_memory_on { OnErr result (is_on ≡ true) }
        ensures no_memory_some { OnErr result (0 < length self.old.leaving) }
    {
        if is_on {
            self.hand_front()?;
        }
        Ok(())
    }

    /// Hands out the oldest value of the ring on the way out, if there is one.
    fn hand_front(&mut self) -> Result<(), NoMemory>
        ensures handed { IfOk result (λ _. self.new ≡ with_hand true self.old) }
        ensures no_memory { OnErr result (0 < length self.old.leaving) }
    {
        let cycle = self.hub.journal().cycles;
        if let Some(word) = self.hub.hand(CHANNEL)? {
            let transfer = Transfer {
                cycle,
                channel: CHANNEL,
                word,
            };
            self.handed.add(transfer)?;
        }
        Ok(())
    }

    /// Ends the cycle, of which fewer than 2^64 - 1 have ended.
    pub fn end_cycle(&mut self)
        requires { self.old.cycles < 2 ^ 64 - 1 }
        ensures { self.new ≡ with_cycle self.old }
    {
        self.hub.next_cycle();
    }

    /// How many cycles have ended.
    pub fn cycle_count(&self) -> u64
        ensures { result ≡ self.now.cycles }
    {
        self.hub.journal().cycles
    }

    /// How many values were taken.
    pub fn taken_count(&self) -> usize
        ensures { result ≡ length self.now.taken }
    {
        self.hub.journal().taken.len()
    }

    /// The values that were handed, in order.
    pub fn handed(&self) -> &[Transfer]
        ensures { result.now ≡ self.now.handed }
    {
        self.handed.as_slice()
    }
}
