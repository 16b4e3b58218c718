//! A walk in element order: what is placed, what each element still waits for, and what is ready.
ghost use Rattle.std.specs.Prelude.{◌≡◌, ◌+◌, ◌<◌, true, false, All, IfOk, OnOk, get_or, length, map};
ghost use Rattle.element_order.specs.Orders.{AllBelow, ordered};
ghost use Rattle.element_order.specs.Worklists.{AreDue, AreFound, Walk, told_waits, told_keys, all_told_waits, all_told_keys};

use crate::feeds::feeds_of;
use esi_base::{List, NoMemory};
use std::alloc::Global;
use std::collections::BTreeSet;

/// The elements that are placed so far, in order, and what is known of the others.
#[derive(Drop)]
pub(crate) struct Worklist<'a> {
    pub(crate) needs: &'a [List<usize>],
    pub(crate) feeds: Vec<List<usize>>,
    pub(crate) placed: List<usize>,
    pub(crate) ready: BTreeSet<usize>,
    pub(crate) waits: Vec<usize>,
}

impl<'a> Worklist<'a> {
    /// Nothing is placed, and what needs nothing is ready.
    pub(crate) fn new(alloc: Global, needs: &'a [List<usize>]) -> Result<Worklist<'a>, NoMemory>
        requires { All (AllBelow (length needs.now)) needs.now }
        ensures needs { IfOk result (λ list. list.needs.now ≡ needs.now) }
        ensures walk { IfOk result (λ list. Walk needs.now list.feeds.items list.placed list.ready.keys list.waits.items) }
    {
        let feeds = feeds_of(alloc, needs)?;
        let waits = counts_of(alloc, needs)?;
        let ready = ready_at_start(alloc, waits.as_slice())?;
        Ok(Worklist {
            needs,
            feeds,
            placed: List::new(alloc),
            ready,
            waits,
        })
    }

    /// Places the first element that is ready. Answers false where none is.
    pub(crate) fn place_next(&mut self) -> Result<bool, NoMemory>
        requires { Walk self.old.needs.now self.old.feeds.items self.old.placed self.old.ready.keys self.old.waits.items }
        ensures needs { self.new.needs ≡ self.old.needs }
        ensures walk { OnOk result (Walk self.new.needs.now self.new.feeds.items self.new.placed self.new.ready.keys self.new.waits.items) }
        ensures more { IfOk result (λ more. more ≡ true → length self.new.placed ≡ length self.old.placed + 1) }
        ensures end { IfOk result (λ more. more ≡ false → self.new.placed ≡ ordered self.old.needs.now) }
    {
        let Some(element) = self.ready.pop_first() else {
            return Ok(false);
        };
        self.placed.add(element)?;
        let fed = &self.feeds[element];
        tell(&mut self.waits, &mut self.ready, fed.as_slice())?;
        Ok(true)
    }
}

/// How many sources each element has.
fn counts_of(alloc: Global, needs: &[List<usize>]) -> Result<Vec<usize>, NoMemory>
    ensures { IfOk result (λ counts. counts.items ≡ map length needs.now) }
{
    Ok(needs.iter().map(|sources| sources.len()).collect(alloc)?)
}

/// The elements that wait for nothing.
fn ready_at_start(alloc: Global, waits: &[usize]) -> Result<BTreeSet<usize>, NoMemory>
    ensures { IfOk result (λ ready. AreFound (length waits.now) waits.now ready.keys) }
{
    let mut ready = BTreeSet::new(alloc);
    for (element, count) in waits.iter().enumerate() {
        if *count == 0 {
            ready.insert(element)?;
        }
    }
    Ok(ready)
}

/// Tells elements that one of their sources is placed.
fn tell(waits: &mut Vec<usize>, ready: &mut BTreeSet<usize>, fed: &[usize]) -> Result<(), NoMemory>
    requires { AreDue fed.now waits.old.items }
    ensures waits { OnOk result (waits.new.items ≡ all_told_waits waits.old.items fed.now) }
    ensures ready { OnOk result (ready.new.keys ≡ all_told_keys ready.old.keys waits.old.items fed.now) }
{
    for element in fed {
        tell_one(waits, ready, *element)?;
    }
    Ok(())
}

/// An element waits for one source less, and is ready where that was the last.
fn tell_one(
    waits: &mut Vec<usize>,
    ready: &mut BTreeSet<usize>,
    element: usize,
) -> Result<(), NoMemory>
    requires { 0 < get_or waits.old.items element 0 }
    ensures waits { OnOk result (waits.new.items ≡ told_waits waits.old.items element) }
    ensures ready { OnOk result (ready.new.keys ≡ told_keys ready.old.keys waits.old.items element) }
{
    waits[element] -= 1;
    if waits[element] == 0 {
        ready.insert(element)?;
    }
    Ok(())
}
