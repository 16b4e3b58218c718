//! The first pass: registers in element order.
ghost use Rattle.std.specs.Prelude.{◌≡◌, ◌+◌, ◌<◌, length, OnOk, IsErrOf};
ghost use Rattle.netlist.specs.Parts.{IsGoodPart};
ghost use Rattle.buffer_stage.specs.Passes.{register_nets};
ghost use Rattle.channel_lower.specs.Lowering.{register_turn};

use crate::lowering::Lowering;
use buffer_stage::emit_registers;
use netlist::{MAX_NETS, NetRefused, Part};
use std::alloc::Global;

/// The registers of one element.
pub(crate) fn push_registers(
    alloc: Global,
    lowering: &mut Lowering,
    part: &Part,
) -> Result<(), NetRefused>
    requires { IsGoodPart part.now }
    ensures pushed { OnOk result (lowering.new ≡ register_turn part.now lowering.old) }
    ensures too_many { IsErrOf result NetRefused.TooMany → MAX_NETS < length lowering.old.netlist.nets + length (register_nets part.now) }
{
    match emit_registers(alloc, &mut lowering.netlist, part) {
        Ok(laid) => {
            if lowering.registers.push(laid.registers).is_err() {
                return Err(NetRefused::NoMemory);
            }
            Ok(())
        }
        Err(refused) => Err(refused),
    }
}
