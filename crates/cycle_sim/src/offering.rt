//! The inputs of a cycle.
ghost use Rattle.std.specs.Prelude.{List, Option};
ghost use Rattle.std.specs.Prelude.{length};
ghost use Rattle.netlist.specs.Nets.{Bits};
ghost use Rattle.netlist.specs.Settled.{AreInputs};
ghost use Rattle.cycle_sim.specs.Offers.{KeepsInputs, IsOffered};
ghost use Rattle.cycle_sim.specs.Wired.{IsWired};
ghost use Rattle.cycle_sim.specs.Turns.{HasState, Begun};

use crate::parts::{State, Wiring};
use crate::putting::put;
use esi_base::Word;

/// Puts the words of the inputs, in order.
pub(crate) fn offer(wiring: &Wiring, state: &mut State, inputs: &[Word])
    requires wired { IsWired wiring.now.net wiring.now.users wiring.now.inputs }
    requires state { HasState wiring.now.net state.old.values state.old.marks state.old.waiting }
    requires inputs { AreInputs wiring.now.net inputs.now }
    ensures state { HasState wiring.now.net state.new.values state.new.marks state.new.waiting }
    ensures offered { IsOffered wiring.now.net inputs.now state.old.values state.new.values (length inputs.now) }
    ensures begun { (last : Option (List Bits)) → KeepsInputs wiring.now.net last state.old.values
        → Begun wiring.now.net last state.old.values state.old.marks state.old.waiting
        → Begun wiring.now.net last state.new.values state.new.marks state.new.waiting }
{
    let places = wiring.inputs.as_slice();
    for number in 0..inputs.len() {
        put(wiring, state, places[number] as usize, inputs[number]);
    }
}
