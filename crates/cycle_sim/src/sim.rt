//! The simulator of a netlist.
ghost use Rattle.std.specs.Prelude.{◌≡◌, ◌+◌, ◌<◌, None, map, IfOk, IfSome, IsSomeAnd, IsTrue, length};
ghost use Rattle.netlist.specs.Nets.{is_computed, is_register};
ghost use Rattle.netlist.specs.Plans.{is_register_at};
ghost use Rattle.netlist.specs.Settled.{AreInputs, IsSettled};
ghost use Rattle.netlist.specs.Runs.{registers_after};
ghost use Rattle.cycle_sim.specs.Changes.{steps_of};
ghost use Rattle.cycle_sim.specs.Simulated.{word_of, register_of, AreAtRest};
ghost use Rattle.cycle_sim.specs.Wired.{IsWired};

use crate::cycle::advance;
use crate::marks::Marks;
use crate::parts::{State, Wiring};
use crate::start::{computed_flags, input_places, no_flags, register_flags, words_at_rest};
use crate::users::Users;
use crate::values::Values;
use esi_base::{NoMemory, Word};
use netlist::{Sealed, Steps};
use std::alloc::Global;
use std::marker::Model;
use std::sync::ledger::Ledger;

/// A netlist that is simulated cycle by cycle. Contracts see the netlist, and the words of its nets in
/// the last cycle, where there was one. Only `new` takes memory.
#[derive(Drop)]
pub struct Sim {
    wiring: Wiring,
    state: State,
    held: Values,
    due: Marks,
    started: bool,
}

impl Model for Sim {
    ghost use Rattle.cycle_sim.specs.Simulated.{Simulated, IsSim, last_of};

    ghost Value = { Simulated };

    ghost view = { λ s. record { plan = s.wiring.net; last = last_of s.started s.state.values } };

    ghost invariant = { λ s. IsSim s.wiring.net s.wiring.users s.wiring.inputs s.state.values s.state.marks s.state.waiting s.held s.due s.started };
}

impl Sim {
    /// A simulator of a netlist, before its first cycle. It keeps a copy of the netlist.
    pub fn new(alloc: Global, net: &Sealed) -> Result<Sim, NoMemory>
        ensures { IfOk result (λ sim. sim ≡ record { plan = net.now; last = None }) }
    {
        let wiring = wiring_of(alloc, net)?;
        let state = first_state(alloc, &wiring.net)?;
        let held = Values::new(alloc, words_at_rest(alloc, &wiring.net)?)?;
        let due = Marks::new(no_flags(alloc, wiring.net.nets().as_slice())?);
        Ok(Sim {
            wiring,
            state,
            held,
            due,
            started: false,
        })
    }

    /// Goes through one cycle with these words of the inputs, one for each input in the order of nets, of
    /// its width. The registers take the words of their next nets of the cycle before, and every net
    /// settles. In the first cycle as many steps are taken as there are nets other than inputs and
    /// registers, in a later one as many as there are such nets of which at least one source has another
    /// word than in the cycle before.
    pub fn cycle<L: Ledger>(&mut self, inputs: &[Word], steps: &mut Steps<L>)
        requires inputs { AreInputs self.old.plan inputs.now }
        ensures netlist { self.new.plan ≡ self.old.plan }
        ensures settled { IsSomeAnd self.new.last (IsSettled self.old.plan inputs.now (registers_after self.old.plan self.old.last)) }
        ensures steps { IfSome self.new.last (λ words. steps.new ≡ steps.old + steps_of self.old.plan.nets self.old.last words) }
    {
        advance(
            &self.wiring,
            &mut self.state,
            &mut self.held,
            &mut self.due,
            self.started,
            inputs,
            steps,
        );
        self.started = true;
    }

    /// The word that a net settled to in the last cycle; before the first cycle the reset of a register,
    /// and else zero.
    pub fn net(&self, id: u32) -> Word
        requires { id < length self.now.plan.nets }
        ensures { result ≡ word_of self.now id }
    {
        self.state.values.word(id as usize)
    }

    /// The word that a register has now: at the start its reset, and behind a cycle the word of its next
    /// net.
    pub fn register(&self, id: u32) -> Word
        requires { IsTrue (is_register_at self.now.plan.nets id) }
        ensures { result ≡ register_of self.now id }
    {
        if self.started {
            self.state.values.word(self.wiring.net.next(id) as usize)
        } else {
            self.state.values.word(id as usize)
        }
    }
}

/// What is made of a netlist once.
fn wiring_of(alloc: Global, net: &Sealed) -> Result<Wiring, NoMemory>
    ensures net { IfOk result (λ wiring. wiring.net ≡ net.now) }
    ensures wired { IfOk result (λ wiring. IsWired wiring.net wiring.users wiring.inputs) }
{
    let net = net.copy(alloc)?;
    let users = Users::new(alloc, &net)?;
    let inputs = input_places(alloc, net.nets().as_slice())?;
    Ok(Wiring { net, users, inputs })
}

/// Words at rest, every net that has to be evaluated marked, and every register waiting.
fn first_state(alloc: Global, net: &Sealed) -> Result<State, NoMemory>
    ensures rest { IfOk result (λ state. AreAtRest net.now state.values) }
    ensures marks { IfOk result (λ state. state.marks ≡ map is_computed net.now.nets) }
    ensures waiting { IfOk result (λ state. state.waiting ≡ map is_register net.now.nets) }
{
    let values = Values::new(alloc, words_at_rest(alloc, net)?)?;
    let nets = net.nets().as_slice();
    let marks = Marks::new(computed_flags(alloc, nets)?);
    let waiting = Marks::new(register_flags(alloc, nets)?);
    Ok(State {
        values,
        marks,
        waiting,
    })
}
