//! The third pass: backward nets.
ghost use Rattle.std.specs.Prelude.{◌≡◌, ◌+◌, ◌^◌, ◌<◌, ◌≤◌, length, IfOk, OnOk, OnErr, IsErrOf};
ghost use Rattle.net_lists.specs.Lists.{with_nets, HasFront};
ghost use Rattle.buffer_stage.specs.Passes.{input_count, output_count, backward_nets, first_ready, input_readies, nets_from, laid_backward, join_of, wire_at, ready_at, MayGoBack};

use crate::laid::{Laid, Wire};
use element_nets::{JoinNets, push_join_ready};
use esi_base::{List, NoMemory};
use looped_nets::{push_fifo_ready, push_fork_ready};
use netlist::{MAX_NETS, NetRefused, Netlist, Part};
use stage_nets::{push_as_vr_rden, push_stage_ready};
use std::alloc::Global;

/// Adds the backward nets of an element whose outputs have these ready nets, and tells the ready nets of its inputs. Of a channel
/// with FIFO signalling it is the net of `rden`.
pub fn emit_backward(
    alloc: Global,
    netlist: &mut Netlist,
    part: &Part,
    laid: &mut Laid,
    readies: &[u32],
) -> Result<List<u32>, NetRefused>
    requires count { length readies.now ≡ output_count part.now }
    requires inputs { length laid.old.inputs ≡ input_count part.now }
    requires first { ready_at readies.now 0 ≤ length netlist.old.nets }
    requires ready { MayGoBack netlist.old part.now laid.old readies.now }
    ensures pushed { OnOk result (netlist.new ≡ with_nets netlist.old (backward_nets part.now laid.old readies.now (length netlist.old.nets))) }
    ensures readies { IfOk result (λ nets. nets ≡ input_readies part.now readies.now (length netlist.old.nets)) }
    ensures laid { OnOk result (laid.new ≡ laid_backward laid.old readies.now (length netlist.old.nets)) }
    ensures room { OnOk result (length netlist.old.nets + length (backward_nets part.now laid.old readies.now (length netlist.old.nets)) ≤ MAX_NETS) }
    ensures too_many { IsErrOf result NetRefused.TooMany → MAX_NETS < length netlist.old.nets + length (backward_nets part.now laid.old readies.now (length netlist.old.nets)) }
    ensures refused { OnErr result (HasFront netlist.old netlist.new (backward_nets part.now laid.old readies.now (length netlist.old.nets))) }
{
    let backward = netlist.len() as u32;
    let Ok(kept) = List::from_slice(alloc, readies) else {
        return Err(NetRefused::NoMemory);
    };
    let first = push_backward(alloc, netlist, part, laid, readies)?;
    let Ok(nets) = list_nets(alloc, first, inputs_of(part)) else {
        return Err(NetRefused::NoMemory);
    };
    laid.readies = kept;
    laid.backward = backward;
    Ok(nets)
}

/// The backward nets, and the ready net of the first input.
fn push_backward(
    alloc: Global,
    netlist: &mut Netlist,
    part: &Part,
    laid: &Laid,
    readies: &[u32],
) -> Result<u32, NetRefused>
    requires count { length readies.now ≡ output_count part.now }
    requires inputs { length laid.now.inputs ≡ input_count part.now }
    requires ready { MayGoBack netlist.old part.now laid.now readies.now }
    ensures pushed { OnOk result (netlist.new ≡ with_nets netlist.old (backward_nets part.now laid.now readies.now (length netlist.old.nets))) }
    ensures first { IfOk result (λ net. net ≡ first_ready part.now readies.now (length netlist.old.nets)) }
    ensures room { OnOk result (length netlist.old.nets + length (backward_nets part.now laid.now readies.now (length netlist.old.nets)) ≤ MAX_NETS) }
    ensures too_many { IsErrOf result NetRefused.TooMany → MAX_NETS < length netlist.old.nets + length (backward_nets part.now laid.now readies.now (length netlist.old.nets)) }
    ensures refused { OnErr result (HasFront netlist.old netlist.new (backward_nets part.now laid.now readies.now (length netlist.old.nets))) }
{
    let _count = netlist.len();
    match part {
        Part::Stage { width: _ } => match push_stage_ready(netlist, laid.registers) {
            Ok(room) => Ok(room),
            Err(refused) => Err(refused),
        },
        Part::Fifo { width: _, depth } => match push_fifo_ready(netlist, *depth, laid.registers) {
            Ok(first) => Ok(first + 2),
            Err(refused) => Err(refused),
        },
        Part::AsFifo => Ok(readies[0]),
        Part::AsVr => match push_as_vr_rden(netlist, readies[0], laid.output.valid) {
            Ok(rden) => Ok(rden),
            Err(refused) => Err(refused),
        },
        Part::Map { body: _ } => Ok(readies[0]),
        Part::Scan { reset: _, body: _ } => Ok(readies[0]),
        Part::Fork { branches } => {
            match push_fork_ready(alloc, netlist, laid.registers, readies) {
                Ok(first) => Ok(first + *branches + (*branches - 2)),
                Err(refused) => Err(refused),
            }
        }
        Part::Join => match push_join_ready(netlist, joined(laid.inputs.as_slice()), readies[0]) {
            Ok(first) => Ok(first),
            Err(refused) => Err(refused),
        },
    }
}

/// The nets of the two inputs of a join.
fn joined(inputs: &[Wire]) -> JoinNets
    requires { length inputs.now ≡ 2 }
    ensures { result ≡ join_of (wire_at inputs.now 0) (wire_at inputs.now 1) }
{
    JoinNets {
        left_valid: inputs[0].valid,
        left_word: inputs[0].word,
        right_valid: inputs[1].valid,
        right_word: inputs[1].word,
    }
}

/// How many inputs a part has.
fn inputs_of(part: &Part) -> u32
    ensures count { result ≡ input_count part.now }
    ensures few { result ≤ 2 }
{
    match part {
        Part::Join => 2,
        _ => 1,
    }
}

/// So many nets from one on.
fn list_nets(alloc: Global, first: u32, count: u32) -> Result<List<u32>, NoMemory>
    requires { first + count < 2 ^ 32 }
    ensures { IfOk result (λ nets. nets ≡ nets_from first count) }
{
    let mut nets = List::new(alloc);
    for net in 0..count {
        nets.add(first + net)?;
    }
    Ok(nets)
}
