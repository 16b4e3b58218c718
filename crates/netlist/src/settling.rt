//! The settled assignment, worked out as it is defined: net by net, in order.
ghost use Rattle.std.specs.Prelude.{◌≡◌, ◌<◌, ◌+◌, ◌^◌, if◌then◌else◌, ℕ, IfOk, IsTrue, length};
ghost use Rattle.netlist.specs.Nets.{word_at, width_at, is_computed, is_input, result_of};
ghost use Rattle.netlist.specs.Plans.{net_at};
ghost use Rattle.netlist.specs.Settled.{IsSettled, AreInputs, AreHeld, equation, operands};

use crate::net::{Net, Sources};
use crate::netlist::Netlist;
use crate::sealed::Sealed;
use esi_base::{List, NoMemory, Word};
use std::alloc::Global;

impl Sealed {
    /// The word of every net, for the words of the inputs in order and those of the registers, each at
    /// its register's place among as many words as there are nets. It works out every net, in order; a
    /// simulator evaluates again only what changes.
    pub fn settled(
        &self,
        alloc: Global,
        inputs: &[Word],
        held: &[Word],
    ) -> Result<List<Word>, NoMemory>
        requires inputs { AreInputs self.now inputs.now }
        requires count { length held.now ≡ length self.now.nets }
        requires held { AreHeld self.now held.now }
        ensures { IfOk result (λ words. IsSettled self.now inputs.now held.now words) }
    {
        let netlist = self.netlist();
        let count = netlist.len();
        let mut words = List::new(alloc);
        let mut given = 0;
        for at in 0..count {
            let word = settled_word(netlist, at as u32, inputs, given, held, words.as_slice());
            given = given_behind(&netlist.nets().as_slice()[at], given);
            if words.push(word).is_err() {
                return Err(NoMemory);
            }
        }
        Ok(words)
    }
}

/// How many inputs were given behind a net, where these were given before it.
fn given_behind(net: &Net, given: usize) -> usize
    requires { given < 2 ^ 63 }
    ensures { result ≡ (if is_input net.now then given + 1 else given) }
{
    if net.is_input() { given + 1 } else { given }
}

/// The word of one net, given those before it.
fn settled_word(
    netlist: &Netlist,
    at: u32,
    inputs: &[Word],
    given: usize,
    held: &[Word],
    words: &[Word],
) -> Word
    requires within { at < length netlist.now.nets }
    requires given { IsTrue (is_input (net_at netlist.now.nets at)) → given < length inputs.now }
    requires held { at < length held.now }
    requires before { length words.now ≡ at }
    requires wide { (j : ℕ) → j < at → length (word_at words.now j) ≡ width_at netlist.now.widths j }
    ensures { result ≡ equation (net_at netlist.now.nets at) (word_at inputs.now given) (word_at held.now at) words.now }
{
    let net = &netlist.nets().as_slice()[at as usize];
    if net.is_input() {
        inputs[given]
    } else if net.is_register() {
        held[at as usize]
    } else {
        computed_word(netlist, at, words)
    }
}

/// The word of a net that is neither an input nor a register, given those before it.
fn computed_word(netlist: &Netlist, at: u32, words: &[Word]) -> Word
    requires within { at < length netlist.now.nets }
    requires computed { IsTrue (is_computed (net_at netlist.now.nets at)) }
    requires before { length words.now ≡ at }
    requires wide { (j : ℕ) → j < at → length (word_at words.now j) ≡ width_at netlist.now.widths j }
    ensures { result ≡ result_of (net_at netlist.now.nets at) (operands (net_at netlist.now.nets at) words.now) }
{
    match netlist.sources(at) {
        Sources::None => netlist.evaluated(at, &[]),
        Sources::One(a) => netlist.evaluated(at, &[words[a as usize]]),
        Sources::Two(a, b) => netlist.evaluated(at, &[words[a as usize], words[b as usize]]),
        Sources::Three(a, b, c) => netlist.evaluated(
            at,
            &[words[a as usize], words[b as usize], words[c as usize]],
        ),
    }
}
