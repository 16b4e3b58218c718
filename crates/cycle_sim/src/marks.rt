//! Marks on places.
ghost use Rattle.std.specs.Prelude.{◌≡◌, ◌<◌, ◌≤◌, ℕ, true, false, length, IsTrue, MatchOption};
ghost use Rattle.std.specs.List.{slice_set};
ghost use Rattle.cycle_sim.specs.Changes.{is_marked};
ghost use Rattle.cycle_sim.specs.Marks.{IsFirstMark, NoneFrom};

use std::marker::Model;

/// Marks on places, found from the first one on. Contracts see whether each place is marked. No mark
/// stands before `from`, nor at `end` or behind it, so a search among no marks costs nothing.
#[derive(Drop)]
pub(crate) struct Marks {
    flags: Vec<bool>,
    from: usize,
    end: usize,
}

impl Model for Marks {
    ghost use Rattle.std.specs.Prelude.{List, Bool};

    ghost Value = { List Bool };

    ghost use Rattle.cycle_sim.specs.Marks.{IsWithin};

    ghost view = { λ m. m.flags.items };

    ghost invariant = { λ m. IsWithin m.flags.items m.from m.end };
}

impl Marks {
    /// The marks that flags say.
    pub fn new(flags: Vec<bool>) -> Marks
        ensures { result ≡ flags.items }
    {
        let end = flags.len();
        Marks {
            flags,
            from: 0,
            end,
        }
    }

    /// Marks a place.
    pub fn set(&mut self, place: usize)
        requires { place < length self.old }
        ensures { self.new ≡ slice_set self.old place true }
    {
        self.flags[place] = true;
        self.from = self.from.min(place);
        self.end = self.end.max(place + 1);
    }

    /// The first place that is marked, from one place on.
    pub fn first(&self, from: usize) -> Option<usize>
        ensures { MatchOption result (NoneFrom self.now from) (λ place. IsFirstMark self.now from place) }
    {
        let place = first_mark(&self.flags, self.from.max(from), self.end);
        if place < self.end { Some(place) } else { None }
    }

    /// Takes the mark away from the first place that is marked, from one place on.
    pub fn take(&mut self, from: usize) -> Option<usize>
        ensures first { MatchOption result (NoneFrom self.old from) (λ place. IsFirstMark self.old from place) }
        ensures taken { MatchOption result (self.new ≡ self.old) (λ place. self.new ≡ slice_set self.old place false) }
    {
        let place = first_mark(&self.flags, self.from.max(from), self.end);
        if from <= self.from {
            self.from = place;
        }
        if place < self.end {
            self.flags[place] = false;
            Some(place)
        } else {
            None
        }
    }
}

/// The first place that is marked, from one place on and before another one, or that other one.
fn first_mark(flags: &[bool], from: usize, end: usize) -> usize
    requires { end ≤ length flags.now }
    ensures from { from ≤ end → from ≤ result }
    ensures before { result ≤ end }
    ensures marked { result < end → IsTrue (is_marked flags.now result) }
    ensures past { end ≤ from → result ≡ end }
    ensures none { (k : ℕ) → from ≤ k → k < result → is_marked flags.now k ≡ false }
{
    for place in from..end {
        if flags[place] {
            return place;
        }
    }
    end
}
