//! The transfers of a cycle, between the rings and the nets.
ghost use Rattle.std.specs.Prelude.{◌≡◌, ◌<◌, ◌≤◌, length, map, slice_set};
ghost use Rattle.cycle_rules.specs.Lists.{zip_with};
ghost use Rattle.cycle_rules.specs.Rings.{after_pop, after_push, ring_at};
ghost use Rattle.cycle_sim.specs.Simulated.{word_of};
ghost use Rattle.session_rules.specs.Ports.{is_ready, word_offered, ArePorts, IsPort};

use crate::words::{lowest_bit, port_of};
use channel_lower::Port;
use cycle_sim::Sim;
use endpoint_hub::{Hub, SIDE_CHANNELS};
use esi_base::Word;

/// Each to-server ring loses its oldest word where its port is ready.
pub(crate) fn leave(hub: &mut Hub, sim: &Sim, servers: &[Port])
    requires rings { length hub.old.to_server ≡ length servers.now }
    requires few { length servers.now ≤ SIDE_CHANNELS }
    requires ports { ArePorts sim.now.plan servers.now }
    ensures to_server { hub.new.to_server ≡ zip_with after_pop hub.old.to_server (map (is_ready (word_of sim.now)) servers.now) }
    ensures to_client { hub.new.to_client ≡ hub.old.to_client }
    ensures has_stream { hub.new.has_stream ≡ hub.old.has_stream }
    ensures journal { hub.new.journal ≡ hub.old.journal }
{
    for channel in 0..servers.len() {
        let ready = takes(sim, port_of(servers, channel));
        leave_at(hub, channel as u32, ready);
    }
}

/// Whether a port is ready.
fn takes(sim: &Sim, port: Port) -> bool
    requires { IsPort sim.now.plan port }
    ensures { result ≡ is_ready (word_of sim.now) port }
{
    lowest_bit(sim.net(port.ready))
}

/// A to-server ring loses its oldest word, where it has one and that goes.
#[tactic(auto, using(crate::proofs::Steps::leaves_not, crate::proofs::Steps::leaves_none, crate::proofs::Steps::leaves_one))]
fn leave_at(hub: &mut Hub, channel: u32, goes: bool)
    requires { channel < length hub.old.to_server }
    ensures to_server { hub.new.to_server ≡ slice_set hub.old.to_server channel (after_pop (ring_at hub.old.to_server channel) goes) }
    ensures to_client { hub.new.to_client ≡ hub.old.to_client }
    ensures has_stream { hub.new.has_stream ≡ hub.old.has_stream }
    ensures journal { hub.new.journal ≡ hub.old.journal }
{
    if !goes {
        return;
    }
    match hub.front(channel) {
        Some(_) => hub.pop(channel),
        None => {}
    }
}

/// Each to-client ring with room gets the word that its port offers.
pub(crate) fn enter(hub: &mut Hub, sim: &Sim, clients: &[Port])
    requires rings { length hub.old.to_client ≡ length clients.now }
    requires few { length clients.now ≤ SIDE_CHANNELS }
    requires ports { ArePorts sim.now.plan clients.now }
    ensures to_client { hub.new.to_client ≡ zip_with after_push hub.old.to_client (map (word_offered (word_of sim.now)) clients.now) }
    ensures to_server { hub.new.to_server ≡ hub.old.to_server }
    ensures has_stream { hub.new.has_stream ≡ hub.old.has_stream }
    ensures journal { hub.new.journal ≡ hub.old.journal }
{
    for channel in 0..clients.len() {
        let word = offers(sim, port_of(clients, channel));
        enter_at(hub, channel as u32, word);
    }
}

/// The word that a port offers.
fn offers(sim: &Sim, port: Port) -> Option<Word>
    requires { IsPort sim.now.plan port }
    ensures { result ≡ word_offered (word_of sim.now) port }
{
    if lowest_bit(sim.net(port.valid)) {
        Some(sim.net(port.word))
    } else {
        None
    }
}

/// A to-client ring gets a word, where there is one and the ring has room.
#[tactic(auto, using(crate::proofs::Steps::enters_none))]
fn enter_at(hub: &mut Hub, channel: u32, word: Option<Word>)
    requires { channel < length hub.old.to_client }
    ensures to_client { hub.new.to_client ≡ slice_set hub.old.to_client channel (after_push (ring_at hub.old.to_client channel) word) }
    ensures to_server { hub.new.to_server ≡ hub.old.to_server }
    ensures has_stream { hub.new.has_stream ≡ hub.old.has_stream }
    ensures journal { hub.new.journal ≡ hub.old.journal }
{
    match word {
        Some(word) => enter_word(hub, channel, word),
        None => {}
    }
}

/// A to-client ring gets a word, where it has room.
#[tactic(auto, using(crate::proofs::Steps::enters_full, crate::proofs::Steps::enters_one))]
fn enter_word(hub: &mut Hub, channel: u32, word: Word)
    requires { channel < length hub.old.to_client }
    ensures to_client { hub.new.to_client ≡ slice_set hub.old.to_client channel (after_push (ring_at hub.old.to_client channel) (Some word)) }
    ensures to_server { hub.new.to_server ≡ hub.old.to_server }
    ensures has_stream { hub.new.has_stream ≡ hub.old.has_stream }
    ensures journal { hub.new.journal ≡ hub.old.journal }
{
    if hub.has_room(channel) {
        hub.push(channel, word);
    }
}
