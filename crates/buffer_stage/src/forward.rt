//! The second pass: forward nets.
ghost use Rattle.std.specs.Prelude.{◌≡◌, ◌+◌, ◌*◌, ◌<◌, ◌≤◌, length, IfOk, OnOk, OnErr, IsErrOf};
ghost use Rattle.net_lists.specs.Lists.{with_nets, HasFront};
ghost use Rattle.buffer_stage.specs.Passes.{input_count, wire_at, forward_nets, first_output, outputs, wires_upto, output_count, join_of, laid_forward, MayGoForward};

use crate::laid::{Laid, Wire};
use element_nets::{JoinNets, push_join_forward};
use esi_base::{List, NoMemory};
use formula_nets::push_formula;
use looped_nets::{push_fifo_empty, push_fork_forward};
use netlist::{MAX_BRANCHES, MAX_NETS, NetRefused, Netlist, Part};
use stage_nets::{push_as_fifo_empty, push_as_vr_valid};
use std::alloc::Global;

/// Adds the forward nets of an element whose inputs have these wires, and tells the wires of its outputs.
pub fn emit_forward(
    alloc: Global,
    netlist: &mut Netlist,
    part: &Part,
    laid: &mut Laid,
    inputs: &[Wire],
) -> Result<List<Wire>, NetRefused>
    requires count { length inputs.now ≡ input_count part.now }
    requires registers { laid.old.registers ≤ length netlist.old.nets }
    requires valid { (wire_at inputs.now 0).valid ≤ length netlist.old.nets }
    requires ready { MayGoForward netlist.old part.now laid.old.registers inputs.now }
    ensures pushed { OnOk result (netlist.new ≡ with_nets netlist.old (forward_nets part.now laid.old.registers inputs.now (length netlist.old.nets))) }
    ensures outputs { IfOk result (λ wires. wires ≡ outputs part.now laid.old.registers inputs.now (length netlist.old.nets)) }
    ensures laid { OnOk result (laid.new ≡ laid_forward part.now laid.old inputs.now (length netlist.old.nets)) }
    ensures room { OnOk result (length netlist.old.nets + length (forward_nets part.now laid.old.registers inputs.now (length netlist.old.nets)) ≤ MAX_NETS) }
    ensures too_many { IsErrOf result NetRefused.TooMany → MAX_NETS < length netlist.old.nets + length (forward_nets part.now laid.old.registers inputs.now (length netlist.old.nets)) }
    ensures refused { OnErr result (HasFront netlist.old netlist.new (forward_nets part.now laid.old.registers inputs.now (length netlist.old.nets))) }
{
    let forward = netlist.len() as u32;
    let Ok(kept) = List::from_slice(alloc, inputs) else {
        return Err(NetRefused::NoMemory);
    };
    let output = push_forward(alloc, netlist, part, laid.registers, inputs)?;
    let Ok(wires) = list_wires(alloc, output, outputs_of(part)) else {
        return Err(NetRefused::NoMemory);
    };
    laid.inputs = kept;
    laid.forward = forward;
    laid.output = output;
    Ok(wires)
}

/// The forward nets, and the wire of the first output.
fn push_forward(
    alloc: Global,
    netlist: &mut Netlist,
    part: &Part,
    registers: u32,
    inputs: &[Wire],
) -> Result<Wire, NetRefused>
    requires count { length inputs.now ≡ input_count part.now }
    requires registers { registers ≤ length netlist.old.nets }
    requires ready { MayGoForward netlist.old part.now registers inputs.now }
    ensures pushed { OnOk result (netlist.new ≡ with_nets netlist.old (forward_nets part.now registers inputs.now (length netlist.old.nets))) }
    ensures output { IfOk result (λ wire. wire ≡ first_output part.now registers inputs.now (length netlist.old.nets)) }
    ensures room { OnOk result (length netlist.old.nets + length (forward_nets part.now registers inputs.now (length netlist.old.nets)) ≤ MAX_NETS) }
    ensures too_many { IsErrOf result NetRefused.TooMany → MAX_NETS < length netlist.old.nets + length (forward_nets part.now registers inputs.now (length netlist.old.nets)) }
    ensures refused { OnErr result (HasFront netlist.old netlist.new (forward_nets part.now registers inputs.now (length netlist.old.nets))) }
{
    let _count = netlist.len();
    match part {
        Part::Stage { width: _ } => Ok(Wire {
            valid: registers,
            word: registers + 2,
        }),
        Part::Fifo { width: _, depth } => match push_fifo_empty(netlist, *depth, registers) {
            Ok(first) => Ok(Wire {
                valid: first + 1,
                word: registers + 1,
            }),
            Err(refused) => Err(refused),
        },
        Part::AsFifo => match push_as_fifo_empty(netlist, inputs[0].valid) {
            Ok(empty) => Ok(Wire {
                valid: empty,
                word: inputs[0].word,
            }),
            Err(refused) => Err(refused),
        },
        Part::AsVr => match push_as_vr_valid(netlist, inputs[0].valid) {
            Ok(valid) => Ok(Wire {
                valid,
                word: inputs[0].word,
            }),
            Err(refused) => Err(refused),
        },
        Part::Map { body } => match push_formula(alloc, netlist, &[inputs[0].word], body) {
            Ok(word) => Ok(Wire {
                valid: inputs[0].valid,
                word,
            }),
            Err(refused) => Err(refused),
        },
        Part::Scan { reset: _, body } => {
            match push_formula(alloc, netlist, &[registers, inputs[0].word], body) {
                Ok(word) => Ok(Wire {
                    valid: inputs[0].valid,
                    word,
                }),
                Err(refused) => Err(refused),
            }
        }
        Part::Fork { branches } => {
            match push_fork_forward(alloc, netlist, *branches, registers, inputs[0].valid) {
                Ok(first) => Ok(Wire {
                    valid: first + 1,
                    word: inputs[0].word,
                }),
                Err(refused) => Err(refused),
            }
        }
        Part::Join => match push_join_forward(netlist, join_nets(inputs[0], inputs[1])) {
            Ok(first) => Ok(Wire {
                valid: first,
                word: first + 1,
            }),
            Err(refused) => Err(refused),
        },
    }
}

/// The nets of the inputs of a join.
fn join_nets(left: Wire, right: Wire) -> JoinNets
    ensures { result ≡ join_of left right }
{
    JoinNets {
        left_valid: left.valid,
        left_word: left.word,
        right_valid: right.valid,
        right_word: right.word,
    }
}

/// How many outputs a part has.
fn outputs_of(part: &Part) -> u32
    ensures { result ≡ output_count part.now }
{
    match part {
        Part::Fork { branches } => *branches,
        _ => 1,
    }
}

/// The wires of so many outputs, of which this is the first one. Those behind it have every other net as their valid.
fn list_wires(alloc: Global, first: Wire, count: u32) -> Result<List<Wire>, NoMemory>
    requires few { count ≤ MAX_BRANCHES }
    requires place { first.valid ≤ MAX_NETS + 1 }
    ensures { IfOk result (λ wires. wires ≡ wires_upto first count) }
{
    let mut wires = List::new(alloc);
    for output in 0..count {
        wires.add(Wire {
            valid: first.valid + 2 * output,
            word: first.word,
        })?;
    }
    Ok(wires)
}
