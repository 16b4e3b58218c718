//! A count and places for words.
ghost use Rattle.std.specs.Prelude.{◌≡◌, ◌+◌, ◌^◌, ◌<◌, ◌≤◌, ℕ, length, IfOk, OnOk, OnErr, IsErrOf};
ghost use Rattle.netlist.specs.Plans.{IsWidth};
ghost use Rattle.net_lists.specs.Lists.{with_nets, HasSome};
ghost use Rattle.looped_nets.specs.Fifos.{count_bits, fifo_registers, fifo_front, fifo_back, fifo_next, fifo_linked, IsDepth, IsFifoFrontReady, IsFifoReady, CanLinkFifo, FifosObey};

use esi_base::{List, NoMemory, Word};
use net_lists::push_nets;
use netlist::{MAX_DEPTH, MAX_NETS, Net, NetRefused, Netlist};
use std::alloc::Global;

/// The nets between which a FIFO stands, and those that it has so far.
#[derive(Clone, Copy, Debug)]
pub struct FifoPlaces {
    /// How wide its words are.
    pub width: u32,
    /// How many words it holds at most.
    pub depth: u32,
    /// The valid net of its input.
    pub valid: u32,
    /// The word of its input.
    pub word: u32,
    /// The net of `rden` of its output.
    pub rden: u32,
    /// The first of its registers: the count, then the words, the oldest one first.
    pub registers: u32,
    /// The first of its forward nets. The second one is the net of `empty` of its output.
    pub forward: u32,
    /// The first of its backward nets. The third one is the ready net of its input.
    pub backward: u32,
}

/// How many bits the count of a FIFO of this depth has: as many as the depth has digits in base 2, the least number of bits
/// with which it can count so far.
pub fn count_width(depth: u32) -> u32
    requires { IsDepth depth }
    ensures bits { result ≡ count_bits depth }
    ensures room { depth < 2 ^ result }
    ensures least { (bits : ℕ) → depth < 2 ^ bits → result ≤ bits }
    ensures low { 2 ≤ result }
    ensures high { result ≤ MAX_DEPTH }
{
    u32::BITS - depth.leading_zeros()
}

/// Adds the registers of a FIFO, and tells the number of the first one: its count, and so many words. The oldest word, which
/// is the first one, is that of its output.
pub fn push_fifo_registers(
    alloc: Global,
    netlist: &mut Netlist,
    width: u32,
    depth: u32,
) -> Result<u32, NetRefused>
    requires width { IsWidth width }
    requires depth { IsDepth depth }
    ensures pushed { OnOk result (netlist.new ≡ with_nets netlist.old (fifo_registers width depth)) }
    ensures number { IfOk result (λ first. first ≡ length netlist.old.nets) }
    ensures room { OnOk result (length netlist.old.nets + length (fifo_registers width depth) ≤ MAX_NETS) }
    ensures too_many { IsErrOf result NetRefused.TooMany → MAX_NETS < length netlist.old.nets + length (fifo_registers width depth) }
    ensures refused { OnErr result (HasSome netlist.old netlist.new (fifo_registers width depth)) }
{
    let first = netlist.len() as u32;
    match list_registers(alloc, width, depth) {
        Ok(nets) => match push_nets(netlist, nets.as_slice()) {
            Ok(()) => Ok(first),
            Err(refused) => Err(refused),
        },
        Err(_) => Err(NetRefused::NoMemory),
    }
}

/// Adds the forward nets of a FIFO, and tells the number of the first one. The second one is the net of `empty` of its output,
/// which is 1 where the count is 0.
pub fn push_fifo_empty(netlist: &mut Netlist, depth: u32, registers: u32) -> Result<u32, NetRefused>
    requires { IsFifoFrontReady netlist.old depth registers }
    ensures pushed { OnOk result (netlist.new ≡ with_nets netlist.old (fifo_front depth registers (length netlist.old.nets))) }
    ensures number { IfOk result (λ first. first ≡ length netlist.old.nets) }
    ensures room { OnOk result (length netlist.old.nets + length (fifo_front depth registers 0) ≤ MAX_NETS) }
    ensures too_many { IsErrOf result NetRefused.TooMany → MAX_NETS < length netlist.old.nets + length (fifo_front depth registers 0) }
    ensures refused { OnErr result (HasSome netlist.old netlist.new (fifo_front depth registers (length netlist.old.nets))) }
{
    let first = netlist.len() as u32;
    let none = Word::from_u128(count_width(depth), 0);
    match push_nets(netlist, &[Net::Const(none), Net::Equal(registers, first)]) {
        Ok(()) => Ok(first),
        Err(refused) => Err(refused),
    }
}

/// Adds the backward nets of a FIFO, and tells the number of the first one. The third one is the ready net of its input, which
/// is 1 where the count is not the depth.
pub fn push_fifo_ready(netlist: &mut Netlist, depth: u32, registers: u32) -> Result<u32, NetRefused>
    requires { IsFifoFrontReady netlist.old depth registers }
    ensures pushed { OnOk result (netlist.new ≡ with_nets netlist.old (fifo_back depth registers (length netlist.old.nets))) }
    ensures number { IfOk result (λ first. first ≡ length netlist.old.nets) }
    ensures room { OnOk result (length netlist.old.nets + length (fifo_back depth registers 0) ≤ MAX_NETS) }
    ensures too_many { IsErrOf result NetRefused.TooMany → MAX_NETS < length netlist.old.nets + length (fifo_back depth registers 0) }
    ensures refused { OnErr result (HasSome netlist.old netlist.new (fifo_back depth registers (length netlist.old.nets))) }
{
    let first = netlist.len() as u32;
    let all = Word::from_u128(count_width(depth), depth as u128);
    let nets = [
        Net::Const(all),
        Net::Equal(registers, first),
        Net::Not(first + 1),
    ];
    match push_nets(netlist, &nets) {
        Ok(()) => Ok(first),
        Err(refused) => Err(refused),
    }
}

/// Adds the nets of what a FIFO holds in the next cycle, sets them as the next nets of its registers, and tells the number of
/// the first one.
pub fn push_fifo_next(
    alloc: Global,
    netlist: &mut Netlist,
    fifo: FifoPlaces,
) -> Result<u32, NetRefused>
    requires { IsFifoReady netlist.old fifo }
    ensures pushed { let at = length netlist.old.nets in OnOk result (netlist.new ≡ fifo_linked (with_nets netlist.old (fifo_next fifo at)) fifo at) }
    ensures number { IfOk result (λ first. first ≡ length netlist.old.nets) }
    ensures room { OnOk result (length netlist.old.nets + length (fifo_next fifo (length netlist.old.nets)) ≤ MAX_NETS) }
    ensures too_many { IsErrOf result NetRefused.TooMany → MAX_NETS < length netlist.old.nets + length (fifo_next fifo (length netlist.old.nets)) }
    ensures refused { OnErr result (HasSome netlist.old netlist.new (fifo_next fifo (length netlist.old.nets))) }
{
    let at = netlist.len() as u32;
    match push_place_operators(alloc, netlist, fifo, at) {
        Ok(()) => {
            link_places(netlist, fifo, at);
            Ok(at)
        }
        Err(refused) => Err(refused),
    }
}

/// The nets of what a FIFO holds next, without a register's next net.
fn push_place_operators(
    alloc: Global,
    netlist: &mut Netlist,
    fifo: FifoPlaces,
    at: u32,
) -> Result<(), NetRefused>
    requires place { at ≡ length netlist.old.nets }
    requires ready { IsFifoReady netlist.old fifo }
    ensures pushed { OnOk result (netlist.new ≡ with_nets netlist.old (fifo_next fifo at)) }
    ensures link { OnOk result (CanLinkFifo netlist.new fifo at) }
    ensures room { OnOk result (length netlist.old.nets + length (fifo_next fifo at) ≤ MAX_NETS) }
    ensures too_many { IsErrOf result NetRefused.TooMany → MAX_NETS < length netlist.old.nets + length (fifo_next fifo at) }
    ensures refused { OnErr result (HasSome netlist.old netlist.new (fifo_next fifo at)) }
{
    let _count = netlist.len();
    match list_next(alloc, fifo, at) {
        Ok(nets) => push_nets(netlist, nets.as_slice()),
        Err(_) => Err(NetRefused::NoMemory),
    }
}

/// Sets the next nets of a FIFO's registers.
fn link_places(netlist: &mut Netlist, fifo: FifoPlaces, at: u32)
    requires depth { IsDepth fifo.depth }
    requires places { (fifo.registers ≤ MAX_NETS) × (at ≤ MAX_NETS) }
    requires link { CanLinkFifo netlist.old fifo at }
    ensures { netlist.new ≡ fifo_linked netlist.old fifo at }
{
    for place in 0..fifo.depth - 1 {
        netlist.set_next(fifo.registers + 1 + place, at + 6 + 5 * place + 4);
    }
    let last = fifo.depth - 1;
    netlist.set_next(fifo.registers + 1 + last, at + 6 + 5 * last + 3);
    netlist.set_next(fifo.registers, at + 5);
}

/// The registers of a FIFO of so many words.
fn list_registers(alloc: Global, width: u32, depth: u32) -> Result<List<Net>, NoMemory>
    requires width { IsWidth width }
    requires depth { IsDepth depth }
    ensures { IfOk result (λ nets. nets ≡ fifo_registers width depth) }
{
    let mut nets = List::new(alloc);
    nets.add(Net::Register {
        reset: Word::zero(count_width(depth)),
    })?;
    let reset = Word::zero(width);
    for _place in 0..depth {
        nets.add(Net::Register { reset })?;
    }
    Ok(nets)
}

/// The nets of what a FIFO holds next, from a place on.
fn list_next(alloc: Global, fifo: FifoPlaces, at: u32) -> Result<List<Net>, NoMemory>
    requires depth { IsDepth fifo.depth }
    requires places { (fifo.registers ≤ MAX_NETS) × (fifo.backward ≤ MAX_NETS) × (at ≤ MAX_NETS) }
    ensures { IfOk result (λ nets. nets ≡ fifo_next fifo at) }
{
    let bits = count_width(fifo.depth);
    let mut nets = List::new(alloc);
    nets.push_all(&[
        Net::And(fifo.valid, fifo.backward + 2),
        Net::Const(Word::from_u128(bits - 1, 0)),
        Net::Concat {
            high: at + 1,
            low: at,
        },
        Net::Concat {
            high: at + 1,
            low: fifo.rden,
        },
        Net::Sub(fifo.registers, at + 3),
        Net::Add(at + 4, at + 2),
    ])?;
    for place in 0..fifo.depth - 1 {
        let here = at + 6 + 5 * place;
        let slot = fifo.registers + 1 + place;
        nets.push_all(&[
            Net::Const(Word::from_u128(bits, place as u128)),
            Net::Equal(at + 4, here),
            Net::And(at, here + 1),
            Net::Choose(fifo.rden, slot + 1, slot),
            Net::Choose(here + 2, fifo.word, here + 3),
        ])?;
    }
    let last = fifo.depth - 1;
    let here = at + 6 + 5 * last;
    nets.push_all(&[
        Net::Const(Word::from_u128(bits, last as u128)),
        Net::Equal(at + 4, here),
        Net::And(at, here + 1),
        Net::Choose(here + 2, fifo.word, fifo.registers + 1 + last),
    ])?;
    Ok(nets)
}

/// A FIFO whose nets stand in a complete netlist stores as many words as it is deep, in every run in which it is read only
/// where it is not empty; and it counts no more. It does nothing when it runs.
pub fn fifos_obey()
    ensures { FifosObey }
{}
