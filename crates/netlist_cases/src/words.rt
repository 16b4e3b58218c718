//! The words that a simulator tells.
ghost use Rattle.std.specs.Prelude.{◌≡◌};

use cycle_sim::Sim;
use esi_base::{List, NoMemory, Word};
use netlist::{Sealed, Sources};
use std::alloc::Global;

/// The words of all nets.
pub fn words_now(alloc: Global, net: &Sealed, sim: &Sim) -> Result<List<Word>, NoMemory>
    requires { sim.now.plan ≡ net.now }
{
    let mut words = List::new(alloc);
    for at in 0..net.nets().len() {
        if words.push(sim.net(at as u32)).is_err() {
            return Err(NoMemory);
        }
    }
    Ok(words)
}

/// The words of all registers, each at its register's place, among zeros.
pub fn registers_now(alloc: Global, net: &Sealed, sim: &Sim) -> Result<List<Word>, NoMemory>
    requires { sim.now.plan ≡ net.now }
{
    let mut words = List::new(alloc);
    let nets = net.nets().as_slice();
    for at in 0..nets.len() {
        let word = if nets[at].is_register() {
            sim.register(at as u32)
        } else {
            Word::zero(net.width(at as u32))
        };
        if words.push(word).is_err() {
            return Err(NoMemory);
        }
    }
    Ok(words)
}

/// Whether words are the same.
pub fn same_words(first: &[Word], second: &[Word]) -> bool {
    if first.len() != second.len() {
        return false;
    }
    for at in 0..first.len() {
        if first[at] != second[at] {
            return false;
        }
    }
    true
}

/// How many nets have a source with another word than before; where there was no cycle before, how many
/// are neither inputs nor registers.
pub fn evaluated(net: &Sealed, before: &[Word], words: &[Word]) -> usize {
    let mut count = 0;
    for place in net.nets().as_slice() {
        let is_counted = if before.is_empty() {
            place.is_computed()
        } else {
            match place.sources() {
                Sources::None => false,
                Sources::One(a) => differs(before, words, a),
                Sources::Two(a, b) => differs(before, words, a) || differs(before, words, b),
                Sources::Three(a, b, c) => {
                    differs(before, words, a)
                        || differs(before, words, b)
                        || differs(before, words, c)
                }
            }
        };
        if is_counted {
            count += 1;
        }
    }
    count
}

/// Whether a net has another word than before.
fn differs(before: &[Word], words: &[Word], net: u32) -> bool {
    match (before.get(net as usize), words.get(net as usize)) {
        (Some(before), Some(word)) => before != word,
        _ => true,
    }
}
