//! A circuit in the simulator, and by the definition's slow way beside it.
ghost use Rattle.std.specs.Prelude.{◌≡◌, ◌<◌};

use crate::circuit::Circuit;
use crate::printing::add_words;
use crate::words::{evaluated, registers_now, same_words, words_now};
use cycle_sim::Sim;
use esi_base::{List, NoMemory, Word};
use netlist::{Sealed, Steps};
use netlist_checks::{are_held, are_inputs};
use std::alloc::{AllocError, Global};
use std::sync::ledger::{Blank, Ledger};

/// What a cycle came to.
#[derive(Drop)]
pub struct Cycle {
    /// The words of all nets.
    pub words: List<Word>,
    /// Whether the slow way gave the same words.
    pub is_settled: bool,
}

/// The words of all nets in each cycle, after the count of nets with a source that has another word than in
/// the cycle before.
pub fn cycles_text<L: Ledger>(
    alloc: Global,
    circuit: &Circuit,
    blank: Blank,
) -> Result<String, AllocError>
    requires name { blank.name ≡ L.name }
    requires parts { blank.parts ≡ L.parts }
    requires some { 0 < blank.parts }
{
    let mut text = String::new(alloc);
    let mut steps = Steps::<L>::new(blank);
    let Ok(mut sim) = Sim::new(alloc, &circuit.net) else {
        return String::from_str(alloc, "out of memory");
    };
    let mut before = List::new(alloc);
    for inputs in &circuit.cycles {
        let cycle = run_cycle(alloc, &circuit.net, &mut sim, inputs.as_slice(), &mut steps);
        before = added(&mut text, &circuit.net, before, cycle)?;
    }
    Ok(text)
}

/// Adds what a cycle came to, and gives its words.
fn added(
    text: &mut String,
    net: &Sealed,
    before: List<Word>,
    cycle: Result<Option<Cycle>, NoMemory>,
) -> Result<List<Word>, AllocError> {
    match cycle {
        Ok(Some(cycle)) => {
            let count = evaluated(net, before.as_slice(), cycle.words.as_slice());
            add_words(text, count, cycle.words.as_slice(), cycle.is_settled)?;
            Ok(cycle.words)
        }
        Ok(None) => {
            text.push_str(" no inputs")?;
            Ok(before)
        }
        Err(NoMemory) => {
            text.push_str(" out of memory")?;
            Ok(before)
        }
    }
}

/// Whether a cycle came to the same words in both ways.
pub fn is_alike(cycle: Result<Option<Cycle>, NoMemory>) -> bool {
    match cycle {
        Ok(Some(cycle)) => cycle.is_settled,
        Ok(None) => false,
        Err(NoMemory) => false,
    }
}

/// One cycle in both ways; None where the words are not those of the inputs.
pub fn run_cycle<L: Ledger>(
    alloc: Global,
    net: &Sealed,
    sim: &mut Sim,
    inputs: &[Word],
    steps: &mut Steps<L>,
) -> Result<Option<Cycle>, NoMemory>
    requires { sim.old.plan ≡ net.now }
    ensures { sim.new.plan ≡ net.now }
{
    if !are_inputs(net, inputs) {
        return Ok(None);
    }
    let held = registers_now(alloc, net, sim)?;
    sim.cycle(inputs, steps);
    let words = words_now(alloc, net, sim)?;
    if !are_held(net, held.as_slice()) {
        return Ok(None);
    }
    let settled = net.settled(alloc, inputs, held.as_slice())?;
    let is_settled = same_words(words.as_slice(), settled.as_slice());
    Ok(Some(Cycle { words, is_settled }))
}
