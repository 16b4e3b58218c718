//! A netlist and the inputs of its cycles, as a line tells them.

use crate::reading::{net, number, word};
use esi_base::{List, Word};
use netlist::{Net, Netlist, Sealed};
use netlist_checks::{fits, may_take};
use std::alloc::{AllocError, Global};

/// A netlist, and for each cycle the words of its inputs.
#[derive(Drop)]
pub struct Circuit {
    pub net: Sealed,
    pub cycles: Vec<List<Word>>,
}

impl Circuit {
    /// The netlist and the cycles of a line: nets in order, `next,REGISTER,NET` for each register, and
    /// `cycle,NUMBER,..` for each cycle. None where the line tells no netlist.
    pub fn read(alloc: Global, line: &str) -> Result<Option<Circuit>, AllocError> {
        let mut netlist = Netlist::new(alloc);
        for part in line.split(' ') {
            if part.starts_with("cycle") {
                continue;
            }
            if !added(&mut netlist, part) {
                return Ok(None);
            }
        }
        if !netlist.is_complete() {
            return Ok(None);
        }
        let net = netlist.seal();
        let mut cycles = Vec::new(alloc);
        for part in line.split(' ') {
            if part.starts_with("cycle") {
                cycles.push(inputs(alloc, &net, part)?)?;
            }
        }
        Ok(Some(Circuit { net, cycles }))
    }
}

/// Adds what a part of a line tells to a netlist: a net, or the next net of a register.
fn added(netlist: &mut Netlist, part: &str) -> bool {
    match part.strip_prefix("next,") {
        Some(rest) => {
            let mut numbers = rest.split(',');
            let register = number(numbers.next());
            let next = number(numbers.next());
            linked(netlist, register, next)
        }
        None => match net(part) {
            Some(net) => pushed(netlist, net),
            None => false,
        },
    }
}

/// Adds a net, where it fits.
pub fn pushed(netlist: &mut Netlist, net: Net) -> bool {
    fits(netlist, &net) && netlist.push(net).is_ok()
}

/// Sets the next net of a register, where it may.
pub fn linked(netlist: &mut Netlist, register: u32, next: u32) -> bool {
    if may_take(netlist, register, next) {
        netlist.set_next(register, next);
        true
    } else {
        false
    }
}

/// The words of the inputs in a cycle, as a part tells their numbers.
fn inputs(alloc: Global, net: &Sealed, part: &str) -> Result<List<Word>, AllocError> {
    let mut words = List::new(alloc);
    let mut numbers = part.split(',').skip(1);
    for place in net.nets().as_slice() {
        if let Net::Input { width } = place {
            let value = number(numbers.next());
            if let Some(word) = word(*width, u64::from(value)) {
                words.push_all(&[word])?;
            }
        }
    }
    Ok(words)
}
