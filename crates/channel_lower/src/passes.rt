//! The passes, element by element.
ghost use Rattle.std.specs.Prelude.{◌≡◌, ◌+◌, ◌-◌, ◌<◌, length, get_or, OnOk, IsErrOf};
ghost use Rattle.channel_lower.specs.Lowerable.{IsLowerable, place_of};
ghost use Rattle.channel_lower.specs.Lowering.{element_at, part_of, channel_at, server_turn, client_turn, register_turn, forward_turn, backward_turn, next_turn, server_pass, client_pass, register_pass, forward_pass, backward_pass, next_pass};
ghost use Rattle.channel_lower.specs.Progress.{Progress};

use crate::backward::push_backward;
use crate::forward::push_forward;
use crate::lowering::Lowering;
use crate::next::push_next;
use crate::ports::{push_client, push_server};
use crate::registers::push_registers;
use flat_design::{Element, Flat};
use netlist::{MAX_NETS, NetRefused, Part};
use std::alloc::Global;

/// The inputs of the to-server channels.
pub(crate) fn push_servers(
    lowering: &mut Lowering,
    parts: &[Part],
    flat: &Flat,
    servers: usize,
    clients: &[usize],
) -> Result<(), NetRefused>
    requires lowerable { IsLowerable parts.now flat.now servers clients.now }
    requires so_far { Progress parts.now flat.now clients.now lowering.old 0 0 0 0 0 0 }
    ensures pushed { OnOk result (lowering.new ≡ server_pass flat.now.widths servers lowering.old) }
    ensures so_far { OnOk result (Progress parts.now flat.now clients.now lowering.new servers 0 0 0 0 0) }
    ensures too_many { IsErrOf result NetRefused.TooMany → MAX_NETS < length (server_pass flat.now.widths servers lowering.old).netlist.nets }
{
    for channel in 0..servers {
        match push_server_at(lowering, parts, flat, servers, clients, channel) {
            Ok(()) => {}
            Err(refused) => return Err(refused),
        }
    }
    Ok(())
}

fn push_server_at(
    lowering: &mut Lowering,
    parts: &[Part],
    flat: &Flat,
    servers: usize,
    clients: &[usize],
    channel: usize,
) -> Result<(), NetRefused>
    requires channel { channel < servers }
    requires lowerable { IsLowerable parts.now flat.now servers clients.now }
    requires so_far { Progress parts.now flat.now clients.now lowering.old channel 0 0 0 0 0 }
    ensures pushed { OnOk result (lowering.new ≡ server_turn (get_or flat.now.widths channel 0) lowering.old) }
    ensures so_far { OnOk result (Progress parts.now flat.now clients.now lowering.new (channel + 1) 0 0 0 0 0) }
    ensures too_many { IsErrOf result NetRefused.TooMany → MAX_NETS < length lowering.old.netlist.nets + 2 }
{
    let _kept = lowering.netlist.len();
    push_server(lowering, width_of(flat.widths.as_slice(), channel))
}

/// The width of a channel.
fn width_of(widths: &[u32], channel: usize) -> u32
    ensures { result ≡ get_or widths.now channel 0 }
{
    widths.get(channel).copied().unwrap_or(0)
}

/// The inputs of the to-client channels.
pub(crate) fn push_clients(
    lowering: &mut Lowering,
    parts: &[Part],
    flat: &Flat,
    servers: usize,
    clients: &[usize],
) -> Result<(), NetRefused>
    requires lowerable { IsLowerable parts.now flat.now servers clients.now }
    requires so_far { Progress parts.now flat.now clients.now lowering.old servers 0 0 0 0 0 }
    ensures pushed { OnOk result (lowering.new ≡ client_pass clients.now (length clients.now) lowering.old) }
    ensures so_far { OnOk result (Progress parts.now flat.now clients.now lowering.new servers (length clients.now) 0 0 0 0) }
    ensures too_many { IsErrOf result NetRefused.TooMany → MAX_NETS < length (client_pass clients.now (length clients.now) lowering.old).netlist.nets }
{
    for number in 0..clients.len() {
        match push_client_at(lowering, parts, flat, servers, clients, number) {
            Ok(()) => {}
            Err(refused) => return Err(refused),
        }
    }
    Ok(())
}

fn push_client_at(
    lowering: &mut Lowering,
    parts: &[Part],
    flat: &Flat,
    servers: usize,
    clients: &[usize],
    number: usize,
) -> Result<(), NetRefused>
    requires number { number < length clients.now }
    requires lowerable { IsLowerable parts.now flat.now servers clients.now }
    requires so_far { Progress parts.now flat.now clients.now lowering.old servers number 0 0 0 0 }
    ensures pushed { OnOk result (lowering.new ≡ client_turn (channel_at clients.now number) lowering.old) }
    ensures so_far { OnOk result (Progress parts.now flat.now clients.now lowering.new servers (number + 1) 0 0 0 0) }
    ensures too_many { IsErrOf result NetRefused.TooMany → MAX_NETS < length lowering.old.netlist.nets + 1 }
{
    let _kept = lowering.netlist.len();
    push_client(lowering, clients[number])
}

/// The element of this number.
fn element_of(flat: &Flat, number: usize) -> &Element
    requires { number < length flat.now.elements }
    ensures { result.now ≡ element_at flat.now.elements number }
{
    &flat.elements.as_slice()[number]
}

/// The part of the element of this number.
fn part_at<'a>(parts: &'a [Part], flat: &Flat, number: usize) -> &'a Part
    requires number { number < length flat.now.elements }
    requires there { (element_at flat.now.elements number).part < length parts.now }
    ensures { result.now ≡ part_of parts.now (element_at flat.now.elements number) }
{
    &parts[element_of(flat, number).part]
}

/// Registers, in element order.
pub(crate) fn push_all_registers(
    alloc: Global,
    lowering: &mut Lowering,
    parts: &[Part],
    flat: &Flat,
    servers: usize,
    clients: &[usize],
) -> Result<(), NetRefused>
    requires lowerable { IsLowerable parts.now flat.now servers clients.now }
    requires so_far { Progress parts.now flat.now clients.now lowering.old servers (length clients.now) 0 0 0 0 }
    ensures pushed { OnOk result (lowering.new ≡ register_pass parts.now flat.now.elements (length flat.now.elements) lowering.old) }
    ensures so_far { OnOk result (Progress parts.now flat.now clients.now lowering.new servers (length clients.now) (length flat.now.elements) 0 0 0) }
    ensures too_many { IsErrOf result NetRefused.TooMany → MAX_NETS < length (register_pass parts.now flat.now.elements (length flat.now.elements) lowering.old).netlist.nets }
{
    for number in 0..flat.elements.len() {
        match push_registers_at(alloc, lowering, parts, flat, servers, clients, number) {
            Ok(()) => {}
            Err(refused) => return Err(refused),
        }
    }
    Ok(())
}

fn push_registers_at(
    alloc: Global,
    lowering: &mut Lowering,
    parts: &[Part],
    flat: &Flat,
    servers: usize,
    clients: &[usize],
    number: usize,
) -> Result<(), NetRefused>
    requires number { number < length flat.now.elements }
    requires lowerable { IsLowerable parts.now flat.now servers clients.now }
    requires so_far { Progress parts.now flat.now clients.now lowering.old servers (length clients.now) number 0 0 0 }
    ensures pushed { OnOk result (lowering.new ≡ register_turn (part_of parts.now (element_at flat.now.elements number)) lowering.old) }
    ensures so_far { OnOk result (Progress parts.now flat.now clients.now lowering.new servers (length clients.now) (number + 1) 0 0 0) }
    ensures too_many { IsErrOf result NetRefused.TooMany → MAX_NETS < length (register_turn (part_of parts.now (element_at flat.now.elements number)) lowering.old).netlist.nets }
{
    let _kept = lowering.netlist.len();
    let part = part_at(parts, flat, number);
    push_registers(alloc, lowering, part)
}

/// Forward nets, in element order.
pub(crate) fn push_all_forward(
    alloc: Global,
    lowering: &mut Lowering,
    parts: &[Part],
    flat: &Flat,
    servers: usize,
    clients: &[usize],
) -> Result<(), NetRefused>
    requires lowerable { IsLowerable parts.now flat.now servers clients.now }
    requires so_far { Progress parts.now flat.now clients.now lowering.old servers (length clients.now) (length flat.now.elements) 0 0 0 }
    ensures pushed { OnOk result (lowering.new ≡ forward_pass parts.now flat.now.elements (length flat.now.elements) lowering.old) }
    ensures so_far { OnOk result (Progress parts.now flat.now clients.now lowering.new (place_of servers flat.now.elements (length flat.now.elements)) (length clients.now) (length flat.now.elements) (length flat.now.elements) 0 0) }
    ensures too_many { IsErrOf result NetRefused.TooMany → MAX_NETS < length (forward_pass parts.now flat.now.elements (length flat.now.elements) lowering.old).netlist.nets }
{
    for number in 0..flat.elements.len() {
        match push_forward_at(alloc, lowering, parts, flat, servers, clients, number) {
            Ok(()) => {}
            Err(refused) => return Err(refused),
        }
    }
    Ok(())
}

fn push_forward_at(
    alloc: Global,
    lowering: &mut Lowering,
    parts: &[Part],
    flat: &Flat,
    servers: usize,
    clients: &[usize],
    number: usize,
) -> Result<(), NetRefused>
    requires number { number < length flat.now.elements }
    requires lowerable { IsLowerable parts.now flat.now servers clients.now }
    requires so_far { Progress parts.now flat.now clients.now lowering.old (place_of servers flat.now.elements number) (length clients.now) (length flat.now.elements) number 0 0 }
    ensures pushed { OnOk result (lowering.new ≡ forward_turn (part_of parts.now (element_at flat.now.elements number)) (element_at flat.now.elements number) number lowering.old) }
    ensures so_far { OnOk result (Progress parts.now flat.now clients.now lowering.new (place_of servers flat.now.elements (number + 1)) (length clients.now) (length flat.now.elements) (number + 1) 0 0) }
    ensures too_many { IsErrOf result NetRefused.TooMany → MAX_NETS < length (forward_turn (part_of parts.now (element_at flat.now.elements number)) (element_at flat.now.elements number) number lowering.old).netlist.nets }
{
    let _kept = lowering.netlist.len();
    let element = element_of(flat, number);
    let part = part_at(parts, flat, number);
    push_forward(alloc, lowering, part, element, number)
}

/// Backward nets, in reverse element order.
pub(crate) fn push_all_backward(
    alloc: Global,
    lowering: &mut Lowering,
    parts: &[Part],
    flat: &Flat,
    servers: usize,
    clients: &[usize],
) -> Result<(), NetRefused>
    requires lowerable { IsLowerable parts.now flat.now servers clients.now }
    requires so_far { Progress parts.now flat.now clients.now lowering.old (place_of servers flat.now.elements (length flat.now.elements)) (length clients.now) (length flat.now.elements) (length flat.now.elements) 0 0 }
    ensures pushed { OnOk result (lowering.new ≡ backward_pass parts.now flat.now.elements (length flat.now.elements) lowering.old) }
    ensures so_far { OnOk result (Progress parts.now flat.now clients.now lowering.new (place_of servers flat.now.elements (length flat.now.elements)) (length clients.now) (length flat.now.elements) (length flat.now.elements) (length flat.now.elements) 0) }
    ensures too_many { IsErrOf result NetRefused.TooMany → MAX_NETS < length (backward_pass parts.now flat.now.elements (length flat.now.elements) lowering.old).netlist.nets }
{
    let count = flat.elements.len();
    for done in 0..count {
        match push_backward_at(
            alloc,
            lowering,
            parts,
            flat,
            servers,
            clients,
            count - 1 - done,
            done,
        ) {
            Ok(()) => {}
            Err(refused) => return Err(refused),
        }
    }
    Ok(())
}

fn push_backward_at(
    alloc: Global,
    lowering: &mut Lowering,
    parts: &[Part],
    flat: &Flat,
    servers: usize,
    clients: &[usize],
    number: usize,
    done: usize,
) -> Result<(), NetRefused>
    requires number { number + done + 1 ≡ length flat.now.elements }
    requires lowerable { IsLowerable parts.now flat.now servers clients.now }
    requires so_far { Progress parts.now flat.now clients.now lowering.old (place_of servers flat.now.elements (length flat.now.elements)) (length clients.now) (length flat.now.elements) (length flat.now.elements) done 0 }
    ensures pushed { OnOk result (lowering.new ≡ backward_turn (part_of parts.now (element_at flat.now.elements number)) (element_at flat.now.elements number) number lowering.old) }
    ensures so_far { OnOk result (Progress parts.now flat.now clients.now lowering.new (place_of servers flat.now.elements (length flat.now.elements)) (length clients.now) (length flat.now.elements) (length flat.now.elements) (done + 1) 0) }
    ensures too_many { IsErrOf result NetRefused.TooMany → MAX_NETS < length (backward_turn (part_of parts.now (element_at flat.now.elements number)) (element_at flat.now.elements number) number lowering.old).netlist.nets }
{
    let _kept = lowering.netlist.len();
    let element = element_of(flat, number);
    let part = part_at(parts, flat, number);
    match push_backward(alloc, lowering, part, element, number) {
        Ok(()) => {
            let _still_kept = lowering.netlist.len();
            Ok(())
        }
        Err(refused) => Err(refused),
    }
}

/// Next nets, in element order.
pub(crate) fn push_all_next(
    alloc: Global,
    lowering: &mut Lowering,
    parts: &[Part],
    flat: &Flat,
    servers: usize,
    clients: &[usize],
) -> Result<(), NetRefused>
    requires lowerable { IsLowerable parts.now flat.now servers clients.now }
    requires so_far { Progress parts.now flat.now clients.now lowering.old (place_of servers flat.now.elements (length flat.now.elements)) (length clients.now) (length flat.now.elements) (length flat.now.elements) (length flat.now.elements) 0 }
    ensures pushed { OnOk result (lowering.new ≡ next_pass parts.now flat.now.elements (length flat.now.elements) lowering.old) }
    ensures so_far { OnOk result (Progress parts.now flat.now clients.now lowering.new (place_of servers flat.now.elements (length flat.now.elements)) (length clients.now) (length flat.now.elements) (length flat.now.elements) (length flat.now.elements) (length flat.now.elements)) }
    ensures too_many { IsErrOf result NetRefused.TooMany → MAX_NETS < length (next_pass parts.now flat.now.elements (length flat.now.elements) lowering.old).netlist.nets }
{
    for number in 0..flat.elements.len() {
        match push_next_at(alloc, lowering, parts, flat, servers, clients, number) {
            Ok(()) => {}
            Err(refused) => return Err(refused),
        }
    }
    Ok(())
}

fn push_next_at(
    alloc: Global,
    lowering: &mut Lowering,
    parts: &[Part],
    flat: &Flat,
    servers: usize,
    clients: &[usize],
    number: usize,
) -> Result<(), NetRefused>
    requires number { number < length flat.now.elements }
    requires lowerable { IsLowerable parts.now flat.now servers clients.now }
    requires so_far { Progress parts.now flat.now clients.now lowering.old (place_of servers flat.now.elements (length flat.now.elements)) (length clients.now) (length flat.now.elements) (length flat.now.elements) (length flat.now.elements) number }
    ensures pushed { OnOk result (lowering.new ≡ next_turn (part_of parts.now (element_at flat.now.elements number)) number lowering.old) }
    ensures so_far { OnOk result (Progress parts.now flat.now clients.now lowering.new (place_of servers flat.now.elements (length flat.now.elements)) (length clients.now) (length flat.now.elements) (length flat.now.elements) (length flat.now.elements) (number + 1)) }
    ensures too_many { IsErrOf result NetRefused.TooMany → MAX_NETS < length (next_turn (part_of parts.now (element_at flat.now.elements number)) number lowering.old).netlist.nets }
{
    let _kept = lowering.netlist.len();
    let part = part_at(parts, flat, number);
    push_next(alloc, lowering, part, number)
}
