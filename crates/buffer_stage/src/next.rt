//! The last pass: next nets.
ghost use Rattle.std.specs.Prelude.{◌≡◌, ◌+◌, ◌<◌, ◌≤◌, length, OnOk, OnErr, IsErrOf};
ghost use Rattle.net_lists.specs.Lists.{with_nets, HasFront};
ghost use Rattle.buffer_stage.specs.Passes.{input_count, output_count, next_nets, linked_up, stage_of, fifo_in, scan_of, fork_in, MayGoOn};

use crate::laid::Laid;
use element_nets::{ScanNets, push_scan_next};
use looped_nets::{FifoPlaces, ForkPlaces, push_fifo_next, push_fork_next};
use netlist::{MAX_NETS, NetRefused, Netlist, Part};
use stage_nets::{StageNets, push_stage_next};
use std::alloc::Global;

/// Adds the nets of what an element holds in the next cycle, and sets them as the next nets of its registers.
pub fn emit_next(
    alloc: Global,
    netlist: &mut Netlist,
    part: &Part,
    laid: &Laid,
) -> Result<(), NetRefused>
    requires inputs { length laid.now.inputs ≡ input_count part.now }
    requires readies { length laid.now.readies ≡ output_count part.now }
    requires ready { MayGoOn netlist.old part.now laid.now }
    ensures pushed { let at = length netlist.old.nets in OnOk result (netlist.new ≡ linked_up part.now laid.now at (with_nets netlist.old (next_nets part.now laid.now at))) }
    ensures room { OnOk result (length netlist.old.nets + length (next_nets part.now laid.now (length netlist.old.nets)) ≤ MAX_NETS) }
    ensures too_many { IsErrOf result NetRefused.TooMany → MAX_NETS < length netlist.old.nets + length (next_nets part.now laid.now (length netlist.old.nets)) }
    ensures refused { OnErr result (HasFront netlist.old netlist.new (next_nets part.now laid.now (length netlist.old.nets))) }
{
    let _count = netlist.len();
    match part {
        Part::Stage { width } => match push_stage_next(netlist, stage_nets(laid, *width)) {
            Ok(_) => Ok(()),
            Err(refused) => Err(refused),
        },
        Part::Fifo { width, depth } => {
            match push_fifo_next(alloc, netlist, fifo_places(laid, *width, *depth)) {
                Ok(_) => Ok(()),
                Err(refused) => Err(refused),
            }
        }
        Part::Scan { reset, body: _ } => match push_scan_next(netlist, scan_nets(laid), *reset) {
            Ok(_) => Ok(()),
            Err(refused) => Err(refused),
        },
        Part::Fork { branches: _ } => {
            match push_fork_next(alloc, netlist, fork_places(laid), laid.readies.as_slice()) {
                Ok(_) => Ok(()),
                Err(refused) => Err(refused),
            }
        }
        Part::AsFifo => Ok(()),
        Part::AsVr => Ok(()),
        Part::Map { body: _ } => Ok(()),
        Part::Join => Ok(()),
    }
}

/// The nets of a stage.
fn stage_nets(laid: &Laid, width: u32) -> StageNets
    requires inputs { length laid.now.inputs ≡ 1 }
    requires readies { length laid.now.readies ≡ 1 }
    ensures { result ≡ stage_of width laid.now }
{
    let input = laid.inputs.as_slice()[0];
    StageNets {
        width,
        registers: laid.registers,
        valid: input.valid,
        word: input.word,
        ready: laid.readies.as_slice()[0],
        room: laid.backward,
    }
}

/// The nets of a FIFO.
fn fifo_places(laid: &Laid, width: u32, depth: u32) -> FifoPlaces
    requires inputs { length laid.now.inputs ≡ 1 }
    requires readies { length laid.now.readies ≡ 1 }
    ensures { result ≡ fifo_in width depth laid.now }
{
    let input = laid.inputs.as_slice()[0];
    FifoPlaces {
        width,
        depth,
        valid: input.valid,
        word: input.word,
        rden: laid.readies.as_slice()[0],
        registers: laid.registers,
        forward: laid.forward,
        backward: laid.backward,
    }
}

/// The nets of a scan.
fn scan_nets(laid: &Laid) -> ScanNets
    requires inputs { length laid.now.inputs ≡ 1 }
    requires readies { length laid.now.readies ≡ 1 }
    ensures { result ≡ scan_of laid.now }
{
    ScanNets {
        register: laid.registers,
        valid: laid.inputs.as_slice()[0].valid,
        ready: laid.readies.as_slice()[0],
        out: laid.output.word,
    }
}

/// The nets of a fork.
fn fork_places(laid: &Laid) -> ForkPlaces
    requires { length laid.now.inputs ≡ 1 }
    ensures { result ≡ fork_in laid.now }
{
    let input = laid.inputs.as_slice()[0];
    ForkPlaces {
        valid: input.valid,
        word: input.word,
        registers: laid.registers,
        forward: laid.forward,
        backward: laid.backward,
    }
}
