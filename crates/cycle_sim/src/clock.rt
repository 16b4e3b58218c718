//! The clock.
ghost use Rattle.std.specs.Prelude.{◌≡◌, ◌<◌, length};
ghost use Rattle.std.specs.List.{slice_set};
ghost use Rattle.netlist.specs.Nets.{word_at};
ghost use Rattle.netlist.specs.Plans.{is_register_at};
ghost use Rattle.cycle_sim.specs.Changes.{marks_put};
ghost use Rattle.cycle_sim.specs.Clocks.{AreWords, MarksRegisters, IsCalm, IsCollected, IsReleased};
ghost use Rattle.cycle_sim.specs.Marks.{NoneFrom};
ghost use Rattle.cycle_sim.specs.Wired.{users_at, is_other_at, IsWired};
ghost use Rattle.cycle_sim.specs.Turns.{HasState};

use crate::marks::Marks;
use crate::parts::{State, Wiring};
use crate::putting::{put, put_number};
use crate::values::Values;
use netlist::MAX_NUMBER_WIDTH;
use std::mem;

/// Each register takes the word that its next net had in the cycle before, all at once. Those that do not
/// wait have it already. `held` is room for words, and `due` for marks.
pub(crate) fn clock(wiring: &Wiring, state: &mut State, held: &mut Values, due: &mut Marks)
    requires wired { IsWired wiring.now.net wiring.now.users wiring.now.inputs }
    requires state { HasState wiring.now.net state.old.values state.old.marks state.old.waiting }
    requires held { AreWords wiring.now.net held.old }
    requires due { MarksRegisters wiring.now.net due.old }
    requires none_due { NoneFrom due.old 0 }
    requires none_marked { NoneFrom state.old.marks 0 }
    requires calm { IsCalm wiring.now.net state.old.values state.old.waiting }
    ensures released { IsReleased wiring.now.net state.old.values state.new.values state.new.marks state.new.waiting (length wiring.now.net.nets) }
    ensures state { HasState wiring.now.net state.new.values state.new.marks state.new.waiting }
    ensures held { AreWords wiring.now.net held.new }
    ensures due { MarksRegisters wiring.now.net due.new }
    ensures none_due { NoneFrom due.new 0 }
{
    mem::swap(&mut state.waiting, due);
    collect(wiring, &state.values, due, held);
    release(wiring, state, held, due);
}

/// Collects the words of the next nets of the registers that are due, each at its register's place.
fn collect(wiring: &Wiring, values: &Values, due: &Marks, held: &mut Values)
    requires wired { IsWired wiring.now.net wiring.now.users wiring.now.inputs }
    requires values { AreWords wiring.now.net values.now }
    requires held { AreWords wiring.now.net held.old }
    requires due { MarksRegisters wiring.now.net due.now }
    ensures held { AreWords wiring.now.net held.new }
    ensures collected { IsCollected wiring.now.net values.now due.now held.new (length wiring.now.net.nets) }
{
    let mut from = 0;
    while let Some(register) = due.first(from) {
        let next = wiring.net.next(register as u32);
        let width = wiring.net.width(next);
        held.put_from(register, values, next as usize, width);
        from = register + 1;
    }
}

/// Puts the words that were collected at the registers that are due.
fn release(wiring: &Wiring, state: &mut State, held: &Values, due: &mut Marks)
    requires wired { IsWired wiring.now.net wiring.now.users wiring.now.inputs }
    requires state { HasState wiring.now.net state.old.values state.old.marks state.old.waiting }
    requires held { AreWords wiring.now.net held.now }
    requires due { MarksRegisters wiring.now.net due.old }
    requires none_marked { NoneFrom state.old.marks 0 }
    requires calm { IsCalm wiring.now.net state.old.values due.old }
    requires collected { IsCollected wiring.now.net state.old.values due.old held.now (length wiring.now.net.nets) }
    ensures released { IsReleased wiring.now.net state.old.values state.new.values state.new.marks state.new.waiting (length wiring.now.net.nets) }
    ensures state { HasState wiring.now.net state.new.values state.new.marks state.new.waiting }
    ensures due { MarksRegisters wiring.now.net due.new }
    ensures none_due { NoneFrom due.new 0 }
{
    let mut from = 0;
    while let Some(register) = due.take(from) {
        put_held(wiring, state, register, held);
        from = register + 1;
    }
}

/// Puts the word that is held at a net's place.
fn put_held(wiring: &Wiring, state: &mut State, net: usize, held: &Values)
    requires wired { IsWired wiring.now.net wiring.now.users wiring.now.inputs }
    requires state { HasState wiring.now.net state.old.values state.old.marks state.old.waiting }
    requires within { net < length wiring.now.net.nets }
    requires held { AreWords wiring.now.net held.now }
    ensures values { state.new.values ≡ slice_set state.old.values net (word_at held.now net) }
    ensures marks { state.new.marks ≡ marks_put (is_other_at wiring.now.net.nets) (users_at wiring.now.users net) (word_at state.old.values net) (word_at held.now net) state.old.marks }
    ensures waiting { state.new.waiting ≡ marks_put (is_register_at wiring.now.net.nets) (users_at wiring.now.users net) (word_at state.old.values net) (word_at held.now net) state.old.waiting }
    ensures kept { HasState wiring.now.net state.new.values state.new.marks state.new.waiting }
{
    if wiring.net.width(net as u32) <= MAX_NUMBER_WIDTH {
        put_number(wiring, state, net, held.number(net));
    } else {
        put(wiring, state, net, held.word(net));
    }
}
