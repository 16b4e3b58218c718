//! A netlist that goes through two cycles again and again, in the simulator alone.
ghost use Rattle.std.specs.Prelude.{◌≡◌, ◌<◌};
ghost use Rattle.netlist.specs.Settled.{AreInputs};

use crate::circuit::Circuit;
use crate::printing::add_word;
use cycle_sim::Sim;
use esi_base::Word;
use netlist::{Sealed, Steps};
use netlist_checks::are_inputs;
use std::alloc::{AllocError, Global};
use std::sync::ledger::{Blank, Ledger};

/// Goes through the first and the last cycle of a circuit so often, and tells the word of the last net.
pub fn repeated<L: Ledger>(
    alloc: Global,
    circuit: &Circuit,
    rounds: u32,
    blank: Blank,
) -> Result<String, AllocError>
    requires name { blank.name ≡ L.name }
    requires parts { blank.parts ≡ L.parts }
    requires some { 0 < blank.parts }
{
    let mut steps = Steps::<L>::new(blank);
    let Ok(mut sim) = Sim::new(alloc, &circuit.net) else {
        return String::from_str(alloc, "out of memory");
    };
    let (Some(first), Some(last)) = (circuit.cycles.first(), circuit.cycles.last()) else {
        return String::from_str(alloc, "no cycles");
    };
    let first = first.as_slice();
    let last = last.as_slice();
    if !are_inputs(&circuit.net, first) || !are_inputs(&circuit.net, last) {
        return String::from_str(alloc, "no inputs");
    }
    go_round(&mut sim, first, last, rounds, &mut steps);
    last_word(alloc, &circuit.net, &sim)
}

/// Goes through two cycles so often.
fn go_round<L: Ledger>(
    sim: &mut Sim,
    first: &[Word],
    last: &[Word],
    rounds: u32,
    steps: &mut Steps<L>,
)
    requires first { AreInputs sim.old.plan first.now }
    requires last { AreInputs sim.old.plan last.now }
    ensures { sim.new.plan ≡ sim.old.plan }
{
    for _ in 0..rounds {
        sim.cycle(first, steps);
        sim.cycle(last, steps);
    }
}

/// The word of the last net.
fn last_word(alloc: Global, net: &Sealed, sim: &Sim) -> Result<String, AllocError>
    requires { sim.now.plan ≡ net.now }
{
    let mut text = String::new(alloc);
    let count = net.nets().len();
    if 0 < count {
        add_word(&mut text, &sim.net((count - 1) as u32))?;
    }
    Ok(text)
}
