//! The last pass: next nets in element order.
ghost use Rattle.std.specs.Prelude.{◌≡◌, ◌+◌, ◌<◌, length, OnOk, IsErrOf};
ghost use Rattle.buffer_stage.specs.Passes.{input_count, output_count, next_nets, MayGoOn};
ghost use Rattle.channel_lower.specs.Lowering.{next_turn, laid_of};

use crate::lowering::Lowering;
use buffer_stage::emit_next;
use netlist::{MAX_NETS, NetRefused, Part};
use std::alloc::Global;

/// The next nets of the element with this number.
pub(crate) fn push_next(
    alloc: Global,
    lowering: &mut Lowering,
    part: &Part,
    number: usize,
) -> Result<(), NetRefused>
    requires number { number < length lowering.old.row }
    requires inputs { length (laid_of lowering.old.row number).inputs ≡ input_count part.now }
    requires readies { length (laid_of lowering.old.row number).readies ≡ output_count part.now }
    requires ready { MayGoOn lowering.old.netlist part.now (laid_of lowering.old.row number) }
    ensures pushed { OnOk result (lowering.new ≡ next_turn part.now number lowering.old) }
    ensures too_many { IsErrOf result NetRefused.TooMany → MAX_NETS < length lowering.old.netlist.nets + length (next_nets part.now (laid_of lowering.old.row number) (length lowering.old.netlist.nets)) }
{
    let laid = &lowering.row.as_slice()[number];
    match emit_next(alloc, &mut lowering.netlist, part, laid) {
        Ok(()) => Ok(()),
        Err(refused) => Err(refused),
    }
}
