//! Runs netlists that stand in lines, and random ones, in the simulator and by the definition's slow way.
#![tactic(auto)]

mod circuit;
mod printing;
mod random;
mod reading;
mod repeats;
mod runs;
mod words;

use crate::circuit::Circuit;
use std::alloc::{AllocError, Global};
use std::io;
use std::marker::Brand;
use std::sync::ledger::Blank;

/// Each line is a case: a netlist with the inputs of its cycles, `random SEED COUNT`, or `repeat ROUNDS`
/// before a netlist. For each it prints what the nets settle to, that random netlists settle alike in both
/// ways, or the word of the last net after so many rounds.
fn main(rt: HostRuntime) -> io::Result<()> {
    let alloc = rt.alloc();
    for line in rt.lines(alloc) {
        let line = line?;
        let text = answer(alloc, line.as_str())?;
        println!(rt; "{text}")?;
    }
    Ok(())
}

/// What is printed for a line.
fn answer(alloc: Global, line: &str) -> Result<String, AllocError> {
    if let Some(rest) = line.strip_prefix("random ") {
        let (seed, count) = reading::two_numbers(rest);
        return random::compared(alloc, seed, count);
    }
    if let Some(rest) = line.strip_prefix("repeat ") {
        return repeated(alloc, rest);
    }
    match Circuit::read(alloc, line)? {
        Some(circuit) => runs::cycles_text::<Brand>(alloc, &circuit, Blank::new(1)),
        None => String::from_str(alloc, "no netlist"),
    }
}

/// What is printed for a netlist behind the number of its rounds.
fn repeated(alloc: Global, rest: &str) -> Result<String, AllocError> {
    let Some((rounds, netlist)) = rest.split_once(' ') else {
        return String::from_str(alloc, "no netlist");
    };
    let rounds = reading::number(Some(rounds));
    match Circuit::read(alloc, netlist)? {
        Some(circuit) => repeats::repeated::<Brand>(alloc, &circuit, rounds, Blank::new(1)),
        None => String::from_str(alloc, "no netlist"),
    }
}
