//! A word is put at a net, and its users are marked.
ghost use Rattle.std.specs.Prelude.{◌≡◌, ◌<◌, ◌≤◌, ◌^◌, All, if◌then◌else◌, not, true, length};
ghost use Rattle.std.specs.List.{slice_set};
ghost use Rattle.esi_base.specs.Bits.{bits_of};
ghost use Rattle.netlist.specs.declared.limits.TheConstants.{MAX_NUMBER_WIDTH};
ghost use Rattle.netlist.specs.Nets.{word_at, width_at, is_register};
ghost use Rattle.netlist.specs.Plans.{is_register_at};
ghost use Rattle.cycle_sim.specs.Changes.{with_marks, marks_put};
ghost use Rattle.cycle_sim.specs.Wired.{users_at, is_other_at, IsWired};
ghost use Rattle.cycle_sim.specs.Turns.{HasState};

use crate::marks::Marks;
use crate::parts::{State, Wiring};
use crate::values::word_number;
use esi_base::Word;
use netlist::{MAX_NUMBER_WIDTH, Net};

/// Puts a word of its width at a net. Where it is another one than before, the net's users are marked, and
/// the registers among them wait.
pub(crate) fn put(wiring: &Wiring, state: &mut State, net: usize, word: Word)
    requires wired { IsWired wiring.now.net wiring.now.users wiring.now.inputs }
    requires state { HasState wiring.now.net state.old.values state.old.marks state.old.waiting }
    requires within { net < length wiring.now.net.nets }
    requires width { length word ≡ width_at wiring.now.net.widths net }
    ensures values { state.new.values ≡ slice_set state.old.values net word }
    ensures marks { state.new.marks ≡ marks_put (is_other_at wiring.now.net.nets) (users_at wiring.now.users net) (word_at state.old.values net) word state.old.marks }
    ensures waiting { state.new.waiting ≡ marks_put (is_register_at wiring.now.net.nets) (users_at wiring.now.users net) (word_at state.old.values net) word state.old.waiting }
    ensures kept { HasState wiring.now.net state.new.values state.new.marks state.new.waiting }
{
    if word.width() <= MAX_NUMBER_WIDTH {
        put_number(wiring, state, net, word_number(&word));
    } else {
        put_wide(wiring, state, net, word);
    }
}

/// The same for any word, which is compared as a word.
fn put_wide(wiring: &Wiring, state: &mut State, net: usize, word: Word)
    requires wired { IsWired wiring.now.net wiring.now.users wiring.now.inputs }
    requires state { HasState wiring.now.net state.old.values state.old.marks state.old.waiting }
    requires within { net < length wiring.now.net.nets }
    requires width { length word ≡ width_at wiring.now.net.widths net }
    ensures values { state.new.values ≡ slice_set state.old.values net word }
    ensures marks { state.new.marks ≡ marks_put (is_other_at wiring.now.net.nets) (users_at wiring.now.users net) (word_at state.old.values net) word state.old.marks }
    ensures waiting { state.new.waiting ≡ marks_put (is_register_at wiring.now.net.nets) (users_at wiring.now.users net) (word_at state.old.values net) word state.old.waiting }
    ensures kept { HasState wiring.now.net state.new.values state.new.marks state.new.waiting }
{
    store(wiring, state, net, word);
}

/// The same, without a word on what holds of words and marks as before.
fn store(wiring: &Wiring, state: &mut State, net: usize, word: Word)
    requires wired { IsWired wiring.now.net wiring.now.users wiring.now.inputs }
    requires state { HasState wiring.now.net state.old.values state.old.marks state.old.waiting }
    requires within { net < length wiring.now.net.nets }
    requires width { length word ≡ width_at wiring.now.net.widths net }
    ensures values { state.new.values ≡ slice_set state.old.values net word }
    ensures marks { state.new.marks ≡ marks_put (is_other_at wiring.now.net.nets) (users_at wiring.now.users net) (word_at state.old.values net) word state.old.marks }
    ensures waiting { state.new.waiting ≡ marks_put (is_register_at wiring.now.net.nets) (users_at wiring.now.users net) (word_at state.old.values net) word state.old.waiting }
{
    if state.values.word(net) != word {
        state.values.put(net, word);
        mark_users(
            wiring.net.nets().as_slice(),
            wiring.users.of(net),
            &mut state.marks,
            &mut state.waiting,
        );
    }
}

/// The same for the number of a word of at most 64 bits.
pub(crate) fn put_number(wiring: &Wiring, state: &mut State, net: usize, number: u64)
    requires wired { IsWired wiring.now.net wiring.now.users wiring.now.inputs }
    requires state { HasState wiring.now.net state.old.values state.old.marks state.old.waiting }
    requires within { net < length wiring.now.net.nets }
    requires narrow { width_at wiring.now.net.widths net ≤ MAX_NUMBER_WIDTH }
    requires fits { number < 2 ^ width_at wiring.now.net.widths net }
    ensures values { let word = bits_of (width_at wiring.now.net.widths net) number in state.new.values ≡ slice_set state.old.values net word }
    ensures marks { let word = bits_of (width_at wiring.now.net.widths net) number in
        state.new.marks ≡ marks_put (is_other_at wiring.now.net.nets) (users_at wiring.now.users net) (word_at state.old.values net) word state.old.marks }
    ensures waiting { let word = bits_of (width_at wiring.now.net.widths net) number in
        state.new.waiting ≡ marks_put (is_register_at wiring.now.net.nets) (users_at wiring.now.users net) (word_at state.old.values net) word state.old.waiting }
    ensures kept { HasState wiring.now.net state.new.values state.new.marks state.new.waiting }
{
    store_number(wiring, state, net, number);
}

/// The same, without a word on what holds of words and marks as before.
fn store_number(wiring: &Wiring, state: &mut State, net: usize, number: u64)
    requires wired { IsWired wiring.now.net wiring.now.users wiring.now.inputs }
    requires state { HasState wiring.now.net state.old.values state.old.marks state.old.waiting }
    requires within { net < length wiring.now.net.nets }
    requires narrow { width_at wiring.now.net.widths net ≤ MAX_NUMBER_WIDTH }
    requires fits { number < 2 ^ width_at wiring.now.net.widths net }
    ensures values { let word = bits_of (width_at wiring.now.net.widths net) number in state.new.values ≡ slice_set state.old.values net word }
    ensures marks { let word = bits_of (width_at wiring.now.net.widths net) number in
        state.new.marks ≡ marks_put (is_other_at wiring.now.net.nets) (users_at wiring.now.users net) (word_at state.old.values net) word state.old.marks }
    ensures waiting { let word = bits_of (width_at wiring.now.net.widths net) number in
        state.new.waiting ≡ marks_put (is_register_at wiring.now.net.nets) (users_at wiring.now.users net) (word_at state.old.values net) word state.old.waiting }
{
    if state.values.number(net) != number {
        state.values.put_number(net, number);
        mark_users(
            wiring.net.nets().as_slice(),
            wiring.users.of(net),
            &mut state.marks,
            &mut state.waiting,
        );
    }
}

/// Marks those users that are no registers, and lets the others wait.
fn mark_users(nets: &[Net], users: &[u32], marks: &mut Marks, waiting: &mut Marks)
    requires within { All (λ user. user < length nets.now) users.now }
    requires mark_count { length marks.old ≡ length nets.now }
    requires wait_count { length waiting.old ≡ length nets.now }
    ensures marks { marks.new ≡ with_marks (is_other_at nets.now) users.now marks.old }
    ensures waiting { waiting.new ≡ with_marks (is_register_at nets.now) users.now waiting.old }
{
    for user in users {
        let place = *user as usize;
        mark(&nets[place], place, marks, waiting);
    }
}

/// Marks a net at a place, or lets it wait where it is a register.
fn mark(net: &Net, place: usize, marks: &mut Marks, waiting: &mut Marks)
    requires mark_within { place < length marks.old }
    requires wait_within { place < length waiting.old }
    ensures marks { marks.new ≡ (if not (is_register net.now) then slice_set marks.old place true else marks.old) }
    ensures waiting { waiting.new ≡ (if is_register net.now then slice_set waiting.old place true else waiting.old) }
{
    if net.is_register() {
        waiting.set(place);
    } else {
        marks.set(place);
    }
}
