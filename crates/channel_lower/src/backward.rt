//! The third pass: backward nets in reverse element order.
ghost use Rattle.std.specs.Prelude.{◌≡◌, ℕ, ◌+◌, ◌<◌, ◌≤◌, length, map, OnOk, IfOk, IsErrOf};
ghost use Rattle.buffer_stage.specs.Passes.{input_count, output_count, ready_at, backward_nets, MayGoBack};
ghost use Rattle.channel_lower.specs.Lowering.{backward_turn, laid_of, readies_at, channel_at, with_readies};

use crate::lowering::Lowering;
use buffer_stage::{Laid, Wire, emit_backward};
use esi_base::{List, NoMemory};
use flat_design::Element;
use netlist::{MAX_NETS, NetRefused, Part};
use std::alloc::Global;

/// The backward nets of the element with this number, and with them the ready nets of the channels that it takes.
pub(crate) fn push_backward(
    alloc: Global,
    lowering: &mut Lowering,
    part: &Part,
    element: &Element,
    number: usize,
) -> Result<(), NetRefused>
    requires number { number < length lowering.old.row }
    requires count { length element.now.sinks ≡ output_count part.now }
    requires inputs { length (laid_of lowering.old.row number).inputs ≡ input_count part.now }
    requires first { ready_at (readies_at lowering.old.readies element.now.sinks) 0 ≤ length lowering.old.netlist.nets }
    requires ready { MayGoBack lowering.old.netlist part.now (laid_of lowering.old.row number) (readies_at lowering.old.readies element.now.sinks) }
    requires sources { length element.now.sources ≡ input_count part.now }
    requires within { (k : ℕ) → k < length element.now.sources → channel_at element.now.sources k < length lowering.old.readies }
    ensures pushed { OnOk result (lowering.new ≡ backward_turn part.now element.now number lowering.old) }
    ensures too_many { IsErrOf result NetRefused.TooMany → MAX_NETS < length lowering.old.netlist.nets + length (backward_nets part.now (laid_of lowering.old.row number) (readies_at lowering.old.readies element.now.sinks) (length lowering.old.netlist.nets)) }
{
    let _kept = lowering.netlist.len();
    let Ok(outs) = readies_of(alloc, lowering.readies.as_slice(), element.sinks.as_slice()) else {
        return Err(NetRefused::NoMemory);
    };
    let mut laid = lowering.row.set(number, nowhere(alloc));
    match emit_backward(
        alloc,
        &mut lowering.netlist,
        part,
        &mut laid,
        outs.as_slice(),
    ) {
        Ok(nets) => {
            let _moved = lowering.row.set(number, laid);
            set_readies(
                &mut lowering.readies,
                element.sources.as_slice(),
                nets.as_slice(),
            );
            Ok(())
        }
        Err(refused) => Err(refused),
    }
}

/// An element without nets.
fn nowhere(alloc: Global) -> Laid {
    Laid {
        registers: 0,
        inputs: List::new(alloc),
        forward: 0,
        output: Wire { valid: 0, word: 0 },
        readies: List::new(alloc),
        backward: 0,
    }
}

/// Sets the ready nets of channels.
fn set_readies(readies: &mut List<u32>, channels: &[usize], nets: &[u32])
    requires count { length nets.now ≡ length channels.now }
    requires within { (k : ℕ) → k < length channels.now → channel_at channels.now k < length readies.old }
    ensures { readies.new ≡ with_readies channels.now nets.now readies.old }
{
    for k in 0..channels.len() {
        let _none_before = readies.set(channels[k], nets[k]);
    }
}

/// The ready nets of these channels.
fn readies_of(alloc: Global, readies: &[u32], channels: &[usize]) -> Result<List<u32>, NoMemory>
    ensures { IfOk result (λ taken. taken ≡ readies_at readies.now channels.now) }
{
    let taken = channels.iter().map(|channel| ready_of(readies, *channel));
    Ok(List::from_vec(taken.collect(alloc)?))
}

/// The ready net of a channel.
pub(crate) fn ready_of(readies: &[u32], channel: usize) -> u32
    ensures { result ≡ ready_at readies.now channel }
{
    readies.get(channel).copied().unwrap_or(0)
}
