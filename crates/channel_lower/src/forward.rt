//! The second pass: forward nets in element order.
ghost use Rattle.std.specs.Prelude.{◌≡◌, ◌+◌, ◌<◌, ◌≤◌, length, get_or, OnOk, IfOk, IsErrOf};
ghost use Rattle.buffer_stage.specs.Passes.{input_count, wire_at, forward_nets, laid_at, MayGoForward};
ghost use Rattle.channel_lower.specs.Lowering.{forward_turn, wires_at};

use crate::lowering::Lowering;
use buffer_stage::{Laid, Wire, emit_forward};
use esi_base::{List, NoMemory};
use flat_design::Element;
use netlist::{MAX_NETS, NetRefused, Part};
use std::alloc::Global;

/// The forward nets of the element with this number, which makes the next channels.
pub(crate) fn push_forward(
    alloc: Global,
    lowering: &mut Lowering,
    part: &Part,
    element: &Element,
    number: usize,
) -> Result<(), NetRefused>
    requires number { number < length lowering.old.registers }
    requires count { length element.now.sources ≡ input_count part.now }
    requires registers { get_or lowering.old.registers number 0 ≤ length lowering.old.netlist.nets }
    requires valid { (wire_at (wires_at lowering.old.wires element.now.sources) 0).valid ≤ length lowering.old.netlist.nets }
    requires ready { MayGoForward lowering.old.netlist part.now (get_or lowering.old.registers number 0) (wires_at lowering.old.wires element.now.sources) }
    ensures pushed { OnOk result (lowering.new ≡ forward_turn part.now element.now number lowering.old) }
    ensures too_many { IsErrOf result NetRefused.TooMany → MAX_NETS < length lowering.old.netlist.nets + length (forward_nets part.now (get_or lowering.old.registers number 0) (wires_at lowering.old.wires element.now.sources) (length lowering.old.netlist.nets)) }
{
    let _kept = lowering.netlist.len();
    let registers = lowering.registers.as_slice()[number];
    let Ok(inputs) = wires_of(alloc, lowering.wires.as_slice(), element.sources.as_slice()) else {
        return Err(NetRefused::NoMemory);
    };
    let mut laid = laid_from(alloc, registers);
    match emit_forward(
        alloc,
        &mut lowering.netlist,
        part,
        &mut laid,
        inputs.as_slice(),
    ) {
        Ok(outputs) => {
            if lowering.wires.push_all(outputs.as_slice()).is_err() {
                return Err(NetRefused::NoMemory);
            }
        }
        Err(refused) => return Err(refused),
    }
    if lowering.row.push(laid).is_err() {
        return Err(NetRefused::NoMemory);
    }
    Ok(())
}

/// An element that has its registers.
fn laid_from(alloc: Global, registers: u32) -> Laid
    ensures { result ≡ laid_at registers }
{
    Laid {
        registers,
        inputs: List::new(alloc),
        forward: 0,
        output: Wire { valid: 0, word: 0 },
        readies: List::new(alloc),
        backward: 0,
    }
}

/// The wires of these channels.
fn wires_of(alloc: Global, wires: &[Wire], channels: &[usize]) -> Result<List<Wire>, NoMemory>
    ensures { IfOk result (λ taken. taken ≡ wires_at wires.now channels.now) }
{
    let mut taken = List::new(alloc);
    for channel in channels {
        taken.add(wire_of(wires, *channel))?;
    }
    Ok(taken)
}

/// The wire of a channel.
pub(crate) fn wire_of(wires: &[Wire], channel: usize) -> Wire
    ensures { result ≡ wire_at wires.now channel }
{
    wires
        .get(channel)
        .copied()
        .unwrap_or(Wire { valid: 0, word: 0 })
}
