//! The netlist of a flat list.
ghost use Rattle.std.specs.Prelude.{◌≡◌, ◌<◌, ◌≤◌, length, IfOk, IsErrOf};
ghost use Rattle.netlist.specs.Plans.{HasAllNexts};
ghost use Rattle.flat_design.specs.Laying.{count_up};
ghost use Rattle.channel_lower.specs.Lowerable.{IsLowerable};
ghost use Rattle.channel_lower.specs.Lowering.{nothing, lowered};
ghost use Rattle.channel_lower.specs.Ports.{port_of, ports_of};

use crate::backward::ready_of;
use crate::forward::wire_of;
use crate::lowered::{Lowered, Port};
use crate::lowering::Lowering;
use crate::passes::{
    push_all_backward, push_all_forward, push_all_next, push_all_registers, push_clients,
    push_servers,
};
use esi_base::{List, NoMemory};
use flat_design::Flat;
use netlist::{MAX_NETS, NetRefused, Netlist, Part, Sealed};
use std::alloc::Global;

/// The netlist of a flat list whose first channels, `servers` many, are those of the to-server endpoints, and of which these channels,
/// in order, are those of the to-client endpoints. An element's part is the one of its number in `parts`. It is refused as `TooMany`
/// exactly where more than `MAX_NETS` nets are due.
pub fn lower(
    alloc: Global,
    parts: &[Part],
    flat: &Flat,
    servers: usize,
    clients: &[usize],
) -> Result<Lowered, NetRefused>
    requires { IsLowerable parts.now flat.now servers clients.now }
    ensures net { IfOk result (λ r. r.net ≡ (lowered parts.now flat.now servers clients.now).netlist) }
    ensures servers { IfOk result (λ r. r.servers ≡ ports_of (lowered parts.now flat.now servers clients.now) (count_up 0 servers)) }
    ensures clients { IfOk result (λ r. r.clients ≡ ports_of (lowered parts.now flat.now servers clients.now) clients.now) }
    ensures room { IfOk result (λ r. length (lowered parts.now flat.now servers clients.now).netlist.nets ≤ MAX_NETS) }
    ensures too_many { IsErrOf result NetRefused.TooMany → MAX_NETS < length (lowered parts.now flat.now servers clients.now).netlist.nets }
{
    let Ok(mut lowering) = begun(alloc, flat.widths.len()) else {
        return Err(NetRefused::NoMemory);
    };
    match push_servers(&mut lowering, parts, flat, servers, clients) {
        Ok(()) => {}
        Err(refused) => return Err(refused),
    }
    match push_clients(&mut lowering, parts, flat, servers, clients) {
        Ok(()) => {}
        Err(refused) => return Err(refused),
    }
    match push_all_registers(alloc, &mut lowering, parts, flat, servers, clients) {
        Ok(()) => {}
        Err(refused) => return Err(refused),
    }
    match push_all_forward(alloc, &mut lowering, parts, flat, servers, clients) {
        Ok(()) => {}
        Err(refused) => return Err(refused),
    }
    match push_all_backward(alloc, &mut lowering, parts, flat, servers, clients) {
        Ok(()) => {}
        Err(refused) => return Err(refused),
    }
    match push_all_next(alloc, &mut lowering, parts, flat, servers, clients) {
        Ok(()) => {}
        Err(refused) => return Err(refused),
    }
    let Ok(numbers) = numbers_below(alloc, servers) else {
        return Err(NetRefused::NoMemory);
    };
    let Ok(server_ports) = ports(alloc, &lowering, numbers.as_slice()) else {
        return Err(NetRefused::NoMemory);
    };
    let Ok(client_ports) = ports(alloc, &lowering, clients) else {
        return Err(NetRefused::NoMemory);
    };
    Ok(Lowered {
        net: sealed(lowering),
        servers: server_ports,
        clients: client_ports,
    })
}

/// A netlist without nets, for so many channels.
fn begun(alloc: Global, channels: usize) -> Result<Lowering, NoMemory>
    ensures { IfOk result (λ lowering. lowering ≡ nothing channels) }
{
    let mut readies = List::new(alloc);
    for _channel in 0..channels {
        readies.add(0)?;
    }
    Ok(Lowering {
        netlist: Netlist::new(alloc),
        registers: List::new(alloc),
        wires: List::new(alloc),
        row: List::new(alloc),
        readies,
    })
}

/// The numbers below a count.
fn numbers_below(alloc: Global, count: usize) -> Result<List<usize>, NoMemory>
    ensures { IfOk result (λ numbers. numbers ≡ count_up 0 count) }
{
    let mut numbers = List::new(alloc);
    for number in 0..count {
        numbers.add(number)?;
    }
    Ok(numbers)
}

/// The ports of channels.
fn ports(alloc: Global, lowering: &Lowering, channels: &[usize]) -> Result<List<Port>, NoMemory>
    ensures { IfOk result (λ ports. ports ≡ ports_of lowering.now channels.now) }
{
    let mut ports = List::new(alloc);
    for channel in channels {
        ports.add(port(lowering, *channel))?;
    }
    Ok(ports)
}

/// The port of a channel.
fn port(lowering: &Lowering, channel: usize) -> Port
    ensures { result ≡ port_of lowering.now channel }
{
    let wire = wire_of(lowering.wires.as_slice(), channel);
    let ready = ready_of(lowering.readies.as_slice(), channel);
    Port {
        valid: wire.valid,
        word: wire.word,
        ready,
    }
}

/// The netlist, sealed.
fn sealed(lowering: Lowering) -> Sealed
    requires { HasAllNexts lowering.netlist }
    ensures { result ≡ lowering.netlist }
{
    let Lowering {
        netlist,
        registers: _,
        wires: _,
        row: _,
        readies: _,
    } = lowering;
    netlist.seal()
}
