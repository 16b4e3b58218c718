//! A cycle of the netlist.
ghost use Rattle.std.specs.Prelude.{◌≡◌, ◌<◌, IsSomeAnd};
ghost use Rattle.netlist.specs.Runs.{registers_after};
ghost use Rattle.netlist.specs.Settled.{AreInputs, IsSettled};

use cycle_sim::Sim;
use esi_base::Word;
use netlist::Steps;
use std::marker::Brand;
use std::sync::ledger::{Blank, Ledger};

/// All nets settle for these words of the inputs.
pub(crate) fn settle(sim: &mut Sim, inputs: &[Word])
    requires { AreInputs sim.old.plan inputs.now }
    ensures plan { sim.new.plan ≡ sim.old.plan }
    ensures settled { IsSomeAnd sim.new.last (IsSettled sim.old.plan inputs.now (registers_after sim.old.plan sim.old.last)) }
{
    settle_counted::<Brand>(sim, inputs, Blank::new(1));
}

/// The same, with a ledger that counts the steps of this cycle.
fn settle_counted<L: Ledger>(sim: &mut Sim, inputs: &[Word], blank: Blank)
    requires name { blank.name ≡ L.name }
    requires parts { blank.parts ≡ L.parts }
    requires some { 0 < blank.parts }
    requires inputs { AreInputs sim.old.plan inputs.now }
    ensures plan { sim.new.plan ≡ sim.old.plan }
    ensures settled { IsSomeAnd sim.new.last (IsSettled sim.old.plan inputs.now (registers_after sim.old.plan sim.old.last)) }
{
    let mut steps = Steps::<L>::new(blank);
    sim.cycle(inputs, &mut steps);
}
