//! The first element that depends on itself.
ghost use Rattle.std.specs.Prelude.{◌≡◌, ◌+◌, ◌<◌, ◌≤◌, ◌↔◌, [], true, false, All, IfOk, OnOk, IsTrue, IsSomeAnd, length, replicate};
ghost use Rattle.element_order.specs.Orders.{AllBelow};
ghost use Rattle.element_order.specs.Laws.{Depends, TellsFirst};
ghost use Rattle.element_order.specs.Reached.{AreClear, IsTurn, with_marks, seen_with, waiting_with, all_seen, all_waiting};

use crate::feeds::feeds_of;
use crate::order::element_order;
use esi_base::{List, NoMemory};
use std::alloc::Global;

/// The first place of an element that depends on itself, and None exactly where none does; `places` has the
/// place of each element in the text. All that can be placed in element order, or in the order of what
/// needs them, cost n log n together; each other one before the answer costs a walk through what it depends
/// on.
pub fn first_on_cycle(
    alloc: Global,
    needs: &[List<usize>],
    places: &[usize],
) -> Result<Option<usize>, NoMemory>
    requires needs { All (AllBelow (length needs.now)) needs.now }
    requires places { length places.now ≡ length needs.now }
    ensures { IfOk result (TellsFirst needs.now places.now (length needs.now)) }
{
    let mut cleared = cleared_by_order(alloc, needs)?;
    let mut first = None;
    for element in 0..needs.len() {
        first = earlier_on_cycle(alloc, needs, places, &mut cleared, element, first)?;
    }
    Ok(first)
}

/// The first place, over one element more. Clears it where it does not depend on itself.
fn earlier_on_cycle(
    alloc: Global,
    needs: &[List<usize>],
    places: &[usize],
    cleared: &mut Vec<bool>,
    element: usize,
    first: Option<usize>,
) -> Result<Option<usize>, NoMemory>
    requires needs { All (AllBelow (length needs.now)) needs.now }
    requires places { length places.now ≡ length needs.now }
    requires low { element < length needs.now }
    requires cleared { AreClear needs.now cleared.old.items }
    requires first { TellsFirst needs.now places.now element first }
    ensures cleared { OnOk result (AreClear needs.now cleared.new.items) }
    ensures first { IfOk result (TellsFirst needs.now places.now (element + 1)) }
{
    if is_before(first, places[element]) {
        return Ok(first);
    }
    if depends_on_itself(alloc, needs, cleared.as_slice(), element)? {
        return Ok(Some(places[element]));
    }
    cleared[element] = true;
    Ok(first)
}

/// Whether there is a first place, and it is not after this one.
fn is_before(first: Option<usize>, place: usize) -> bool
    ensures { IsTrue result ↔ IsSomeAnd first (λ at. at ≤ place) }
{
    match first {
        None => false,
        Some(at) => at <= place,
    }
}

/// Marks of the elements that stand in element order, or in the order of what needs them: no such one
/// depends on itself.
fn cleared_by_order(alloc: Global, needs: &[List<usize>]) -> Result<Vec<bool>, NoMemory>
    requires { All (AllBelow (length needs.now)) needs.now }
    ensures { IfOk result (λ cleared. AreClear needs.now cleared.items) }
{
    let mut cleared = no_marks(alloc, needs.len())?;
    let placed = element_order(alloc, needs)?;
    mark(&mut cleared, placed.as_slice());
    let feeds = feeds_of(alloc, needs)?;
    let placed = element_order(alloc, feeds.as_slice())?;
    mark(&mut cleared, placed.as_slice());
    Ok(cleared)
}

/// As many marks that are not set.
fn no_marks(alloc: Global, count: usize) -> Result<Vec<bool>, NoMemory>
    ensures { IfOk result (λ marks. marks.items ≡ replicate count false) }
{
    let mut marks = Vec::new(alloc);
    for _place in 0..count {
        marks.push(false)?;
    }
    Ok(marks)
}

/// Sets the marks of some elements.
fn mark(marks: &mut Vec<bool>, elements: &[usize])
    requires { AllBelow (length marks.old.items) elements.now }
    ensures marks { marks.new.items ≡ with_marks marks.old.items elements.now }
    ensures count { length marks.new.items ≡ length marks.old.items }
{
    for element in elements {
        marks[*element] = true;
    }
}

/// Whether an element depends on itself. What is marked in `cleared` is known not to, and is not walked.
fn depends_on_itself(
    alloc: Global,
    needs: &[List<usize>],
    cleared: &[bool],
    start: usize,
) -> Result<bool, NoMemory>
    requires within { All (AllBelow (length needs.now)) needs.now }
    requires cleared { AreClear needs.now cleared.now }
    requires low { start < length needs.now }
    ensures { IfOk result (λ itself. IsTrue itself ↔ Depends needs.now start start) }
{
    if cleared[start] {
        return Ok(false);
    }
    let mut seen = Vec::from_slice(alloc, cleared)?;
    let mut waiting = Vec::new(alloc);
    reach(&mut seen, &mut waiting, needs[start].as_slice())?;
    while reach_next(needs, &mut seen, &mut waiting)? {}
    Ok(seen[start])
}

/// Marks what the newest of those that wait needs. Answers false where none waits.
fn reach_next(
    needs: &[List<usize>],
    seen: &mut Vec<bool>,
    waiting: &mut Vec<usize>,
) -> Result<bool, NoMemory>
    requires within { All (AllBelow (length needs.now)) needs.now }
    requires sized { length seen.old.items ≡ length needs.now }
    requires low { AllBelow (length needs.now) waiting.old.items }
    ensures turn { IfOk result (λ more. more ≡ true → IsTurn needs.now seen.old.items waiting.old.items seen.new.items waiting.new.items) }
    ensures end { IfOk result (λ more. more ≡ false → waiting.old.items ≡ []) }
    ensures same { IfOk result (λ more. more ≡ false → seen.new.items ≡ seen.old.items) }
{
    let Some(element) = waiting.pop() else {
        return Ok(false);
    };
    let sources = &needs[element];
    reach(seen, waiting, sources.as_slice())?;
    Ok(true)
}

/// Marks elements; those that were not marked wait.
fn reach(seen: &mut Vec<bool>, waiting: &mut Vec<usize>, elements: &[usize]) -> Result<(), NoMemory>
    requires { AllBelow (length seen.old.items) elements.now }
    ensures marks { OnOk result (seen.new.items ≡ all_seen seen.old.items elements.now) }
    ensures waits { OnOk result (waiting.new.items ≡ all_waiting waiting.old.items seen.old.items elements.now) }
{
    for element in elements {
        reach_one(seen, waiting, *element)?;
    }
    Ok(())
}

/// Marks an element; where it was not marked, it waits.
fn reach_one(seen: &mut Vec<bool>, waiting: &mut Vec<usize>, element: usize) -> Result<(), NoMemory>
    requires { element < length seen.old.items }
    ensures marks { OnOk result (seen.new.items ≡ seen_with seen.old.items element) }
    ensures waits { OnOk result (waiting.new.items ≡ waiting_with waiting.old.items seen.old.items element) }
    ensures count { length seen.new.items ≡ length seen.old.items }
{
    if !seen[element] {
        seen[element] = true;
        waiting.push(element)?;
    }
    Ok(())
}
