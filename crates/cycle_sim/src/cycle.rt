//! One cycle: the clock, the inputs, and the pass.
ghost use Rattle.std.specs.Prelude.{◌≡◌, ◌+◌, ◌<◌, true};
ghost use Rattle.netlist.specs.Settled.{AreInputs, IsSettled};
ghost use Rattle.netlist.specs.Runs.{registers_after};
ghost use Rattle.cycle_sim.specs.Changes.{steps_of};
ghost use Rattle.cycle_sim.specs.Wired.{IsWired};
ghost use Rattle.cycle_sim.specs.Turns.{HasState};
ghost use Rattle.cycle_sim.specs.Simulated.{last_of, IsReady, HasRoom};
ghost use Rattle.cycle_sim.specs.CycleLaws.{HasBegun};

use crate::clock::clock;
use crate::marks::Marks;
use crate::offering::offer;
use crate::parts::{State, Wiring};
use crate::pass::settle;
use crate::values::Values;
use esi_base::Word;
use netlist::Steps;
use std::sync::ledger::Ledger;

/// Goes through one cycle. `started` says whether one was before it; `held` and `due` are room.
pub(crate) fn advance<L: Ledger>(
    wiring: &Wiring,
    state: &mut State,
    held: &mut Values,
    due: &mut Marks,
    started: bool,
    inputs: &[Word],
    steps: &mut Steps<L>,
)
    requires wired { IsWired wiring.now.net wiring.now.users wiring.now.inputs }
    requires state { HasState wiring.now.net state.old.values state.old.marks state.old.waiting }
    requires ready { IsReady wiring.now.net state.old.values state.old.marks state.old.waiting started }
    requires room { HasRoom wiring.now.net held.old due.old }
    requires inputs { AreInputs wiring.now.net inputs.now }
    ensures settled { IsSettled wiring.now.net inputs.now (registers_after wiring.now.net (last_of started state.old.values)) state.new.values }
    ensures steps { steps.new ≡ steps.old + steps_of wiring.now.net.nets (last_of started state.old.values) state.new.values }
    ensures state { HasState wiring.now.net state.new.values state.new.marks state.new.waiting }
    ensures ready { IsReady wiring.now.net state.new.values state.new.marks state.new.waiting true }
    ensures room { HasRoom wiring.now.net held.new due.new }
{
    begin(wiring, state, held, due, started);
    offer(wiring, state, inputs);
    settle(wiring, state, steps);
}

/// Begins a cycle: registers change where one was before it.
fn begin(wiring: &Wiring, state: &mut State, held: &mut Values, due: &mut Marks, started: bool)
    requires wired { IsWired wiring.now.net wiring.now.users wiring.now.inputs }
    requires state { HasState wiring.now.net state.old.values state.old.marks state.old.waiting }
    requires ready { IsReady wiring.now.net state.old.values state.old.marks state.old.waiting started }
    requires room { HasRoom wiring.now.net held.old due.old }
    ensures begun { HasBegun wiring.now.net (last_of started state.old.values) state.new.values state.new.marks state.new.waiting }
    ensures state { HasState wiring.now.net state.new.values state.new.marks state.new.waiting }
    ensures room { HasRoom wiring.now.net held.new due.new }
{
    if started {
        clock(wiring, state, held, due);
    }
}
