//! The first pass: registers.
ghost use Rattle.std.specs.Prelude.{◌≡◌, ◌+◌, ◌<◌, ◌≤◌, length, IfOk, OnOk, OnErr, IsErrOf};
ghost use Rattle.netlist.specs.Parts.{IsGoodPart};
ghost use Rattle.net_lists.specs.Lists.{with_nets, HasFront};
ghost use Rattle.buffer_stage.specs.Passes.{register_nets, laid_at};

use crate::laid::{Laid, Wire};
use element_nets::push_scan_register;
use esi_base::List;
use looped_nets::{push_fifo_registers, push_fork_registers};
use netlist::{MAX_NETS, NetRefused, Netlist, Part};
use stage_nets::push_stage_registers;
use std::alloc::Global;

/// Adds the registers of an element with this part, which has to be good.
pub fn emit_registers(alloc: Global, netlist: &mut Netlist, part: &Part) -> Result<Laid, NetRefused>
    requires { IsGoodPart part.now }
    ensures pushed { OnOk result (netlist.new ≡ with_nets netlist.old (register_nets part.now)) }
    ensures laid { IfOk result (λ laid. laid ≡ laid_at (length netlist.old.nets)) }
    ensures room { OnOk result (length netlist.old.nets + length (register_nets part.now) ≤ MAX_NETS) }
    ensures too_many { IsErrOf result NetRefused.TooMany → MAX_NETS < length netlist.old.nets + length (register_nets part.now) }
    ensures refused { OnErr result (HasFront netlist.old netlist.new (register_nets part.now)) }
{
    let first = netlist.len() as u32;
    match push_registers(alloc, netlist, part) {
        Ok(_) => Ok(Laid {
            registers: first,
            inputs: List::new(alloc),
            forward: 0,
            output: Wire { valid: 0, word: 0 },
            readies: List::new(alloc),
            backward: 0,
        }),
        Err(refused) => Err(refused),
    }
}

/// The registers, and the number of the first one.
#[tactic(auto, using(crate::specs::PassLemmas::refused_front))]
fn push_registers(alloc: Global, netlist: &mut Netlist, part: &Part) -> Result<u32, NetRefused>
    requires { IsGoodPart part.now }
    ensures pushed { OnOk result (netlist.new ≡ with_nets netlist.old (register_nets part.now)) }
    ensures room { OnOk result (length netlist.old.nets + length (register_nets part.now) ≤ MAX_NETS) }
    ensures too_many { IsErrOf result NetRefused.TooMany → MAX_NETS < length netlist.old.nets + length (register_nets part.now) }
    ensures refused { OnErr result (HasFront netlist.old netlist.new (register_nets part.now)) }
{
    match part {
        Part::Stage { width } => push_stage_registers(netlist, *width),
        Part::Fifo { width, depth } => push_fifo_registers(alloc, netlist, *width, *depth),
        Part::Scan { reset, body: _ } => push_scan_register(netlist, *reset),
        Part::Fork { branches } => push_fork_registers(alloc, netlist, *branches),
        Part::AsFifo => Ok(netlist.len() as u32),
        Part::AsVr => Ok(netlist.len() as u32),
        Part::Map { body: _ } => Ok(netlist.len() as u32),
        Part::Join => Ok(netlist.len() as u32),
    }
}
