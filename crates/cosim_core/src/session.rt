//! A session over a lowered netlist.
ghost use Rattle.std.specs.Prelude.{◌≡◌, ◌↔◌, ◌-◌, ◌^◌, ◌<◌, Some, None, false, length, map, option_to_list, replicate, slice_index_or, IfOk, IsTrue, OnOk, OnErr, IsErrOf, IsSomeAnd};
ghost use Rattle.netlist.specs.Plans.{IsComplete};
ghost use Rattle.netlist.specs.Settled.{IsSettled};
ghost use Rattle.cycle_rules.specs.Cycle.{after_transfers};
ghost use Rattle.cycle_rules.specs.Lists.{zip_with};
ghost use Rattle.cycle_rules.specs.Rings.{ring_at};
ghost use Rattle.cycle_sim.specs.Simulated.{word_shown};
ghost use Rattle.endpoint_hub.specs.Holdings.{IsNew, Takes, Attaches, Closes, was_attached};
ghost use Rattle.session_rules.specs.Hands.{word_out};
ghost use Rattle.session_rules.specs.Ports.{port_at, port_width, blank_word, circuit_of, start_of, ArePorts, HasPorts, IsPort};
ghost use Rattle.session_rules.specs.Registers.{held_words};
ghost use Rattle.session_rules.specs.Replay.{leaving, replayed};
ghost use Rattle.session_rules.specs.ReplayLemmas.{after_hands};
ghost use Rattle.session_rules.specs.Kept.{IsKept};
ghost use Rattle.session_rules.specs.Running.{registers_of, machine_in, inputs_in, IsRunning, Keeps};
ghost use Rattle.session_rules.specs.RunningLemmas.{NotesCycle};

use crate::cycle::advance;
use crate::parts::{State, Wiring};
use crate::places::{held_by, places_of_registers};
use crate::words::port_of;
use channel_lower::{Lowered, Port};
use cycle_sim::Sim;
use endpoint_hub::{AttachStop, Hub, PutStop, RING_VALUES, SESSION_VALUES};
use esi_base::{List, NoMemory, Word};
use netlist::Sealed;
use std::alloc::Global;
use std::marker::Model;

/// A session over a lowered netlist: its rings, its journal, and the netlist between them, cycle by cycle. Contracts see what is run, the
/// rings and the journal, the words of all nets in the last cycle, and the word that each to-client channel handed in it. A session that
/// ran out of memory in a cycle is not used again.
#[derive(Drop)]
pub struct Session {
    wiring: Wiring,
    state: State,
}

impl Model for Session {
    ghost use Rattle.session_rules.specs.Kept.{IsKept};
    ghost use Rattle.session_rules.specs.Running.{Running};
    ghost use Rattle.cosim_core.specs.Sessions.{lowered_of};

    ghost Value = { Running };

    ghost view = { λ s. record { lowered = lowered_of s.wiring s.state.sim.plan; hub = s.state.hub; last = s.state.sim.last; handed = s.state.handed } };

    ghost invariant = { λ s. IsKept (lowered_of s.wiring s.state.sim.plan) s.wiring.blanks s.wiring.registers };
}

impl Session {
    /// A session over a lowered netlist whose inputs are those of its ports, with nothing in its rings and its journal, before the first
    /// cycle. It keeps a copy of the netlist.
    pub fn new(alloc: Global, lowered: &Lowered) -> Result<Session, NoMemory>
        requires { HasPorts lowered.now }
        ensures lowered { IfOk result (λ session. session.lowered ≡ lowered.now) }
        ensures hub { IfOk result (λ session. IsNew session.hub (length lowered.now.servers) (length lowered.now.clients)) }
        ensures before { IfOk result (λ session. session.last ≡ None) }
        ensures none_handed { IfOk result (λ session. session.handed ≡ replicate (length lowered.now.clients) None) }
        ensures running { IfOk result (λ session. IsRunning session) }
    {
        let wiring = wiring_of(alloc, lowered)?;
        let state = first_state(alloc, lowered)?;
        Ok(Session { wiring, state })
    }

    /// Takes a value of a to-server channel, as wide as its words, into its ring, as `Hub::put` does.
    pub fn put(&mut self, channel: u32, conn: u32, stream: u32, word: Word) -> Result<(), PutStop>
        requires running { IsRunning self.old }
        requires channel { channel < length self.old.lowered.servers }
        requires width { length word ≡ port_width self.old.lowered.net (port_at self.old.lowered.servers channel) }
        ensures taken { OnOk result (Takes self.old.hub self.new.hub channel conn stream word) }
        ensures session_room { OnOk result (length self.old.hub.journal.taken < SESSION_VALUES) }
        ensures room { OnOk result (length (ring_at self.old.hub.to_server channel) < RING_VALUES) }
        ensures session_full { IsErrOf result PutStop.SessionFull ↔ (length self.old.hub.journal.taken ≡ SESSION_VALUES) }
        ensures no_room { IsErrOf result PutStop.NoRoom
            ↔ ((length self.old.hub.journal.taken < SESSION_VALUES) × (length (ring_at self.old.hub.to_server channel) ≡ RING_VALUES)) }
        ensures no_memory_session { IsErrOf result PutStop.NoMemory → length self.old.hub.journal.taken < SESSION_VALUES }
        ensures no_memory_room { IsErrOf result PutStop.NoMemory → length (ring_at self.old.hub.to_server channel) < RING_VALUES }
        ensures refused { OnErr result (self.new ≡ self.old) }
        ensures lowered { self.new.lowered ≡ self.old.lowered }
        ensures last { self.new.last ≡ self.old.last }
        ensures handed { self.new.handed ≡ self.old.handed }
        ensures running { OnOk result (IsRunning self.new) }
    {
        self.state.hub.put(channel, conn, stream, word)
    }

    /// Attaches a stream to a to-client channel, as `Hub::attach` does.
    pub fn attach(&mut self, channel: u32, conn: u32, stream: u32) -> Result<(), AttachStop>
        requires running { IsRunning self.old }
        requires channel { channel < length self.old.lowered.clients }
        ensures attached { OnOk result (Attaches self.old.hub self.new.hub channel conn stream) }
        ensures free { OnOk result (was_attached self.old.hub.journal channel ≡ false) }
        ensures already { IsErrOf result AttachStop.Attached ↔ IsTrue (was_attached self.old.hub.journal channel) }
        ensures no_memory { IsErrOf result AttachStop.NoMemory → was_attached self.old.hub.journal channel ≡ false }
        ensures refused { OnErr result (self.new ≡ self.old) }
        ensures lowered { self.new.lowered ≡ self.old.lowered }
        ensures last { self.new.last ≡ self.old.last }
        ensures handed { self.new.handed ≡ self.old.handed }
        ensures running { OnOk result (IsRunning self.new) }
    {
        self.state.hub.attach(channel, conn, stream)
    }

    /// Notes that the stream of a to-client channel has ended, as `Hub::close` does.
    pub fn close(&mut self, channel: u32)
        requires running { IsRunning self.old }
        requires channel { channel < length self.old.lowered.clients }
        ensures closed { Closes self.old.hub self.new.hub channel }
        ensures lowered { self.new.lowered ≡ self.old.lowered }
        ensures last { self.new.last ≡ self.old.last }
        ensures handed { self.new.handed ≡ self.old.handed }
        ensures running { IsRunning self.new }
    {
        self.state.hub.close(channel);
    }

    /// Runs what follows the takes of a cycle: all nets settle, all transfers move, and of each to-client channel whose flag is true the
    /// oldest value of its ring is handed, where there is one. Then the cycle is over. After `NoMemory` the session is not used again.
    pub fn cycle(&mut self, hands: &[bool]) -> Result<(), NoMemory>
        requires running { IsRunning self.old }
        requires hands { length hands.now ≡ length self.old.lowered.clients }
        requires cycles { self.old.hub.journal.cycles < 2 ^ 64 - 1 }
        ensures settled { OnOk result (IsSomeAnd self.new.last (IsSettled self.old.lowered.net (inputs_in self.old) (registers_of self.old))) }
        ensures machine { OnOk result (machine_in self.new ≡ after_hands (circuit_of self.old.lowered) hands.now (machine_in self.old)) }
        ensures noted { OnOk result (NotesCycle self.old.hub.journal self.new.hub.journal (after_transfers (circuit_of self.old.lowered) (machine_in self.old)).to_client hands.now) }
        ensures handed { OnOk result (self.new.handed ≡ zip_with word_out (after_transfers (circuit_of self.old.lowered) (machine_in self.old)).to_client hands.now) }
        ensures left { OnOk result (map option_to_list self.new.handed ≡ leaving (circuit_of self.old.lowered) (start_of self.old.lowered) self.new.hub.journal.taken self.new.hub.journal.handed self.old.hub.journal.cycles) }
        ensures streams { OnOk result (self.new.hub.has_stream ≡ self.old.hub.has_stream) }
        ensures lowered { OnOk result (self.new.lowered ≡ self.old.lowered) }
        ensures running { OnOk result (IsRunning self.new) }
    {
        advance(&self.wiring, &mut self.state, hands)?;
        Ok(())
    }

    /// The word that a to-client channel handed in the last cycle; None exactly where it handed none. It takes no memory.
    pub fn handed_word(&self, channel: u32) -> Option<Word>
        requires { channel < length self.now.lowered.clients }
        ensures { result ≡ slice_index_or self.now.handed channel None }
    {
        match self.state.handed.as_slice().get(channel as usize) {
            Some(word) => *word,
            None => None,
        }
    }

    /// The word that a net settled to in the last cycle; before the first cycle the reset of a register, and else zero. It takes no
    /// memory.
    pub fn net(&self, id: u32) -> Word
        requires { id < length self.now.lowered.net.nets }
        ensures { result ≡ word_shown self.now.lowered.net self.now.last id }
    {
        self.state.sim.net(id)
    }

    /// The rings and the journal. It takes no memory.
    pub fn hub(&self) -> &Hub
        ensures { result.now ≡ self.now.hub }
    {
        &self.state.hub
    }

    /// The words of the registers, in the order of their nets: those that the journal comes to when it is played again, cycle by cycle,
    /// from registers at their resets and from empty rings.
    pub fn registers(&self, alloc: Global) -> Result<List<Word>, NoMemory>
        requires { IsRunning self.now }
        ensures held { IfOk result (λ words. words ≡ held_words self.now.lowered.net.nets (registers_of self.now)) }
        ensures replayed { IfOk result (λ words. words
            ≡ held_words self.now.lowered.net.nets (replayed (circuit_of self.now.lowered) (start_of self.now.lowered) self.now.hub.journal.taken self.now.hub.journal.handed self.now.hub.journal.cycles).state) }
    {
        let words = held_by(alloc, &self.state.sim, self.wiring.registers.as_slice())?;
        Ok(words)
    }
}

/// What is made of a lowered netlist once.
fn wiring_of(alloc: Global, lowered: &Lowered) -> Result<Wiring, NoMemory>
    requires { HasPorts lowered.now }
    ensures servers { IfOk result (λ wiring. wiring.servers ≡ lowered.now.servers) }
    ensures clients { IfOk result (λ wiring. wiring.clients ≡ lowered.now.clients) }
    ensures kept { IfOk result (λ wiring. IsKept lowered.now wiring.blanks wiring.registers) }
{
    let servers = List::from_slice(alloc, lowered.servers.as_slice())?;
    let clients = List::from_slice(alloc, lowered.clients.as_slice())?;
    let blanks = blank_words(alloc, &lowered.net, lowered.servers.as_slice())?;
    let registers = places_of_registers(alloc, &lowered.net)?;
    Ok(Wiring {
        servers,
        clients,
        blanks,
        registers,
    })
}

/// Nothing in the rings and the journal, before the first cycle.
fn first_state(alloc: Global, lowered: &Lowered) -> Result<State, NoMemory>
    requires { HasPorts lowered.now }
    ensures sim { IfOk result (λ state. state.sim ≡ record { plan = lowered.now.net; last = None }) }
    ensures hub { IfOk result (λ state. IsNew state.hub (length lowered.now.servers) (length lowered.now.clients)) }
    ensures none_handed { IfOk result (λ state. state.handed ≡ replicate (length lowered.now.clients) None) }
    ensures keeps { IfOk result (λ state. Keeps lowered.now state.hub (start_of lowered.now)) }
{
    let _kept = lowered.net.nets();
    let sim = Sim::new(alloc, &lowered.net)?;
    let hub = new_hub(alloc, lowered)?;
    let handed = none_handed(alloc, lowered.clients.len())?;
    Ok(State {
        sim,
        hub,
        handed,
        inputs: List::new(alloc),
    })
}

/// A hub with the channels of a lowered netlist.
fn new_hub(alloc: Global, lowered: &Lowered) -> Result<Hub, NoMemory>
    requires { HasPorts lowered.now }
    ensures { IfOk result (λ hub. IsNew hub (length lowered.now.servers) (length lowered.now.clients)) }
{
    let servers = lowered.servers.len();
    let clients = lowered.clients.len();
    let hub = Hub::new(alloc, servers as u32, clients as u32)?;
    Ok(hub)
}

/// A word of zeros for each port, as wide as its words.
fn blank_words(alloc: Global, net: &Sealed, ports: &[Port]) -> Result<List<Word>, NoMemory>
    requires { ArePorts net.now ports.now }
    ensures { IfOk result (λ words. words ≡ map (blank_word net.now) ports.now) }
{
    let mut words = List::new(alloc);
    for channel in 0..ports.len() {
        words.add(blank(net, port_of(ports, channel)))?;
    }
    Ok(words)
}

/// A word of zeros, as wide as the words of a port.
fn blank(net: &Sealed, port: Port) -> Word
    requires { IsPort net.now port }
    ensures { result ≡ blank_word net.now port }
{
    let width = net.width(port.word);
    Word::zero(width)
}

/// No word for each of so many channels.
fn none_handed(alloc: Global, count: usize) -> Result<List<Option<Word>>, NoMemory>
    ensures { IfOk result (λ words. words ≡ replicate count None) }
{
    let mut words = List::new(alloc);
    for made in 0..count {
        words.add(None)?;
    }
    Ok(words)
}
