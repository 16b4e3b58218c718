//! The pass over the nets that have to be evaluated, from the first one on.
ghost use Rattle.std.specs.Prelude.{◌≡◌, ◌+◌, ◌<◌, ℕ, IsTrue, List, Option, length};
ghost use Rattle.std.specs.List.{slice_set};
ghost use Rattle.esi_base.specs.Bits.{number_of};
ghost use Rattle.netlist.specs.Narrow.{IsNarrow};
ghost use Rattle.netlist.specs.Nets.{Bits, word_at, width_at, is_computed, result_of};
ghost use Rattle.netlist.specs.Plans.{net_at, is_register_at};
ghost use Rattle.netlist.specs.Settled.{operands, HaveWidths};
ghost use Rattle.cycle_sim.specs.Wired.{users_at, is_other_at, IsWired};
ghost use Rattle.cycle_sim.specs.Changes.{marks_put};
ghost use Rattle.cycle_sim.specs.Narrow.{fresh_word};
ghost use Rattle.cycle_sim.specs.Turns.{HasState, Turning};

use crate::parts::{State, Wiring};
use crate::putting::{put, put_number};
use crate::values::Values;
use esi_base::Word;
use netlist::{Sealed, Sources, Steps};
use std::sync::ledger::Ledger;

/// Evaluates each marked net, in order, and those that are marked on the way.
pub(crate) fn settle<L: Ledger>(wiring: &Wiring, state: &mut State, steps: &mut Steps<L>)
    requires wired { IsWired wiring.now.net wiring.now.users wiring.now.inputs }
    requires state { HasState wiring.now.net state.old.values state.old.marks state.old.waiting }
    ensures kept { HasState wiring.now.net state.new.values state.new.marks state.new.waiting }
    ensures settled { (inputs held : List Bits) (last : Option (List Bits)) (start : ℕ)
        → Turning wiring.now.net inputs held last start state.old.values state.old.marks state.old.waiting 0 steps.old
        → Turning wiring.now.net inputs held last start state.new.values state.new.marks state.new.waiting (length wiring.now.net.nets) steps.new }
{
    let mut from = 0;
    while let Some(net) = state.marks.take(from) {
        evaluate(wiring, state, net, steps);
        from = net + 1;
    }
}

/// Evaluates a net and puts its word, in one step.
fn evaluate<L: Ledger>(wiring: &Wiring, state: &mut State, net: usize, steps: &mut Steps<L>)
    requires wired { IsWired wiring.now.net wiring.now.users wiring.now.inputs }
    requires state { HasState wiring.now.net state.old.values state.old.marks state.old.waiting }
    requires within { net < length wiring.now.net.nets }
    requires computed { IsTrue (is_computed (net_at wiring.now.net.nets net)) }
    ensures values { state.new.values ≡ slice_set state.old.values net (fresh_word wiring.now.net state.old.values net) }
    ensures marks { state.new.marks ≡ marks_put (is_other_at wiring.now.net.nets) (users_at wiring.now.users net) (word_at state.old.values net) (fresh_word wiring.now.net state.old.values net) state.old.marks }
    ensures waiting { state.new.waiting ≡ marks_put (is_register_at wiring.now.net.nets) (users_at wiring.now.users net) (word_at state.old.values net) (fresh_word wiring.now.net state.old.values net) state.old.waiting }
    ensures kept { HasState wiring.now.net state.new.values state.new.marks state.new.waiting }
    ensures step { steps.new ≡ steps.old + 1 }
{
    if wiring.net.is_narrow(net as u32) {
        let number = fresh_number(&wiring.net, &state.values, net as u32, steps);
        put_number(wiring, state, net, number);
    } else {
        let word = fresh(&wiring.net, &state.values, net as u32, steps);
        put(wiring, state, net, word);
    }
}

/// The number of the word that a narrow net's operator makes of its sources' words, in one step.
fn fresh_number<L: Ledger>(net: &Sealed, values: &Values, id: u32, steps: &mut Steps<L>) -> u64
    requires within { id < length net.now.nets }
    requires computed { IsTrue (is_computed (net_at net.now.nets id)) }
    requires narrow { IsNarrow net.now id }
    requires count { length values.now ≡ length net.now.nets }
    requires wide { HaveWidths net.now.widths values.now }
    ensures number { result ≡ number_of (fresh_word net.now values.now id) }
    ensures step { steps.new ≡ steps.old + 1 }
{
    match net.sources(id) {
        Sources::None => net.evaluate_narrow(id, 0, 0, 0, steps),
        Sources::One(a) => net.evaluate_narrow(id, values.number(a as usize), 0, 0, steps),
        Sources::Two(a, b) => net.evaluate_narrow(
            id,
            values.number(a as usize),
            values.number(b as usize),
            0,
            steps,
        ),
        Sources::Three(a, b, c) => net.evaluate_narrow(
            id,
            values.number(a as usize),
            values.number(b as usize),
            values.number(c as usize),
            steps,
        ),
    }
}

/// The word that a net's operator makes of its sources' words, in one step.
fn fresh<L: Ledger>(net: &Sealed, values: &Values, id: u32, steps: &mut Steps<L>) -> Word
    requires within { id < length net.now.nets }
    requires computed { IsTrue (is_computed (net_at net.now.nets id)) }
    requires count { length values.now ≡ length net.now.nets }
    requires wide { HaveWidths net.now.widths values.now }
    ensures word { result ≡ result_of (net_at net.now.nets id) (operands (net_at net.now.nets id) values.now) }
    ensures width { length result ≡ width_at net.now.widths id }
    ensures step { steps.new ≡ steps.old + 1 }
{
    match net.sources(id) {
        Sources::None => net.evaluate(id, &[], steps),
        Sources::One(a) => net.evaluate(id, &[values.word(a as usize)], steps),
        Sources::Two(a, b) => net.evaluate(
            id,
            &[values.word(a as usize), values.word(b as usize)],
            steps,
        ),
        Sources::Three(a, b, c) => net.evaluate(
            id,
            &[
                values.word(a as usize),
                values.word(b as usize),
                values.word(c as usize),
            ],
            steps,
        ),
    }
}
