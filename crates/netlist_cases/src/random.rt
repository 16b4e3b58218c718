//! Random netlists with random inputs.
ghost use Rattle.std.specs.Prelude.{◌≡◌, ◌<◌};

use crate::circuit::{linked, pushed};
use crate::reading::word;
use crate::runs::{is_alike, run_cycle};
use cycle_sim::Sim;
use esi_base::{List, Word};
use netlist::{Net, Netlist, Sealed, Steps};
use std::alloc::{AllocError, Global};
use std::marker::Brand;
use std::sync::ledger::{Blank, Ledger};

/// How many nets are tried for a netlist.
const TRIES: u32 = 120;

/// How many cycles each netlist goes through.
const CYCLES: u32 = 16;

/// Numbers from a seed, by a linear congruence modulo 2^64.
#[derive(Drop)]
struct Random {
    state: u64,
}

impl Random {
    /// A number below a bound; 0 for the bound 0.
    fn below(&mut self, bound: u32) -> u32
        ensures { 0 < bound → result < bound }
    {
        self.state = self
            .state
            .wrapping_mul(6364136223846793005)
            .wrapping_add(1442695040888963407);
        let number = (self.state >> 33) as u32;
        if bound == 0 { 0 } else { number % bound }
    }

    /// One of some widths, most of them narrow.
    fn width(&mut self) -> u32 {
        match self.below(8) {
            0 => 8,
            1 => 64,
            2 => 65,
            3 => 200,
            4 => 4,
            _ => 1,
        }
    }

    /// A word of a width.
    fn word(&mut self, width: u32) -> Word {
        let low = u64::from(self.below(u32::MAX));
        let high = u64::from(self.below(u32::MAX));
        match word(width, (high << 32) + low) {
            Some(word) => word,
            None => Word::zero(1),
        }
    }

    /// A net over those that stand so far.
    fn net(&mut self, count: u32) -> Net {
        let a = self.below(count);
        let b = self.below(count);
        let c = self.below(count);
        match self.below(15) {
            0 => Net::Not(a),
            1 => Net::And(a, b),
            2 => Net::Or(a, b),
            3 => Net::Xor(a, b),
            4 => Net::Add(a, b),
            5 => Net::Sub(a, b),
            6 => Net::Equal(a, b),
            7 => Net::Less(a, b),
            8 => Net::Choose(a, b, c),
            9 => Net::Choose(a, c, b),
            10 => {
                let low = self.below(8);
                let high = low + self.below(8);
                Net::Slice { of: a, high, low }
            }
            11 => Net::Concat { high: a, low: b },
            12 => Net::Const(self.one_word()),
            13 => Net::Not(b),
            _ => Net::Xor(b, a),
        }
    }

    /// A word of one of the widths.
    fn one_word(&mut self) -> Word {
        let width = self.width();
        self.word(width)
    }

    /// A netlist of inputs, registers, and what fits of the nets that are tried.
    fn netlist(&mut self, alloc: Global) -> Netlist {
        let mut netlist = Netlist::new(alloc);
        for _ in 0..4u32 {
            let width = self.width();
            let _pushed = pushed(&mut netlist, Net::Input { width });
        }
        for _ in 0..6u32 {
            let reset = self.one_word();
            let _pushed = pushed(&mut netlist, Net::Register { reset });
        }
        for _ in 0..TRIES {
            let count = netlist.len() as u32;
            let net = self.net(count);
            let _pushed = pushed(&mut netlist, net);
        }
        self.link(&mut netlist);
        netlist
    }

    /// Sets the next net of each register: one of its width, and else the register itself.
    fn link(&mut self, netlist: &mut Netlist) {
        let count = netlist.len() as u32;
        for register in 0..count {
            let _itself = linked(netlist, register, register);
            for _ in 0..20u32 {
                let next = self.below(count);
                let _other = linked(netlist, register, next);
            }
        }
    }

    /// Words of the inputs of a netlist, each as before half of the time.
    fn inputs(
        &mut self,
        alloc: Global,
        net: &Sealed,
        before: &[Word],
    ) -> Result<List<Word>, AllocError> {
        let mut words = List::new(alloc);
        for place in net.nets().as_slice() {
            if let Net::Input { width } = place {
                let fresh = self.word(*width);
                let word = match before.get(words.len()) {
                    Some(old) => if self.below(2) == 0 { *old } else { fresh },
                    None => fresh,
                };
                words.push_all(&[word])?;
            }
        }
        Ok(words)
    }
}

/// Whether so many random netlists settle in the simulator as by the slow way.
pub fn compared(alloc: Global, seed: u32, count: u32) -> Result<String, AllocError> {
    let mut random = Random {
        state: u64::from(seed),
    };
    for number in 0..count {
        let netlist = random.netlist(alloc);
        if !netlist.is_complete() {
            return format!(in alloc; "netlist {number} is not complete");
        }
        let net = netlist.seal();
        if !settles_alike::<Brand>(alloc, &net, &mut random, Blank::new(1)) {
            return format!(in alloc; "netlist {number} differs");
        }
    }
    format!(in alloc; "{count} netlists settle alike")
}

/// Whether a netlist settles alike in each of some cycles with random inputs.
fn settles_alike<L: Ledger>(alloc: Global, net: &Sealed, random: &mut Random, blank: Blank) -> bool
    requires name { blank.name ≡ L.name }
    requires parts { blank.parts ≡ L.parts }
    requires some { 0 < blank.parts }
{
    let mut steps = Steps::<L>::new(blank);
    let Ok(mut sim) = Sim::new(alloc, net) else {
        return false;
    };
    let mut before = List::new(alloc);
    for _ in 0..CYCLES {
        let Ok(inputs) = random.inputs(alloc, net, before.as_slice()) else {
            return false;
        };
        let cycle = run_cycle(alloc, net, &mut sim, inputs.as_slice(), &mut steps);
        if !is_alike(cycle) {
            return false;
        }
        before = inputs;
    }
    true
}
