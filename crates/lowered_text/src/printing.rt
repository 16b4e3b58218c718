//! The module of a lowered netlist is printed.
ghost use Rattle.std.specs.Prelude.{◌≡◌, ◌<◌, ◌≤◌, Some, length, map, slice_get, IfOk};
ghost use Rattle.lowered_modules.specs.Interfaces.{ready_of, offer_of};
ghost use Rattle.verilog_text.specs.Texts.{module_text};
ghost use Rattle.lowered_text.specs.LoweredModules.{lowered_module};

use channel_lower::{Lowered, Port};
use esi_base::{List, NoMemory, Octets};
use esi_types::{Directory, SIDE_ENDPOINTS};
use std::alloc::Global;
use verilog_module::Offer;
use verilog_text::print_module;

/// The text of the Verilog module of a lowered netlist, which is called `esi_` and the title, and whose endpoints the directory has.
pub fn print_lowered(
    alloc: Global,
    title: &[u8],
    directory: &Directory,
    lowered: &Lowered,
) -> Result<Octets, NoMemory>
    requires servers { length lowered.now.servers ≤ SIDE_ENDPOINTS }
    requires clients { length lowered.now.clients ≤ SIDE_ENDPOINTS }
    ensures { IfOk result (λ text. text ≡ module_text (lowered_module title.now directory.now lowered.now)) }
{
    let servers = lowered.servers.as_slice();
    let clients = lowered.clients.as_slice();
    let readies = readies_of(alloc, servers)?;
    let offers = offers_of(alloc, clients)?;
    let ready_nets = readies.as_slice();
    let offer_nets = offers.as_slice();
    let text = print_module(
        alloc,
        title,
        directory,
        &lowered.net,
        ready_nets,
        offer_nets,
    )?;
    Ok(text)
}

/// The ready nets of ports.
fn readies_of(alloc: Global, ports: &[Port]) -> Result<List<u32>, NoMemory>
    ensures { IfOk result (λ readies. readies ≡ map ready_of ports.now) }
{
    let mut readies = List::new(alloc);
    for n in 0..ports.len() {
        let port = port_at(ports, n);
        readies.add(port.ready)?;
    }
    Ok(readies)
}

/// The valid and word nets of ports.
fn offers_of(alloc: Global, ports: &[Port]) -> Result<List<Offer>, NoMemory>
    ensures { IfOk result (λ offers. offers ≡ map offer_of ports.now) }
{
    let mut offers = List::new(alloc);
    for n in 0..ports.len() {
        let port = port_at(ports, n);
        offers.add(offer(port))?;
    }
    Ok(offers)
}

/// The valid and the word net of a port.
fn offer(port: Port) -> Offer
    ensures { result ≡ offer_of port }
{
    Offer {
        valid: port.valid,
        word: port.word,
    }
}

/// A port of ports.
fn port_at(ports: &[Port], n: usize) -> Port
    requires { n < length ports.now }
    ensures { slice_get ports.now n ≡ Some result }
{
    ports[n]
}
