//! Whether each channel is used once.
ghost use Rattle.std.specs.Prelude.{◌≡◌, ◌+◌, ◌<◌, ◌∷◌, [], ℕ, true, false, length, get_or, replicate, flat_map, IfOk, IsTrue};
ghost use Rattle.flat_design.specs.Laying.{count_up};
ghost use Rattle.flat_design.specs.FlatLaws.{total, sources_in};
ghost use Rattle.flat_checks.specs.Marks.{IsMarked};

use esi_base::{List, NoMemory};
use flat_design::Element;
use std::alloc::Global;

/// Whether each of so many channels is used once, as a channel that an element takes or as one of a to-client endpoint.
pub fn are_used_once(
    alloc: Global,
    elements: &[Element],
    clients: &[usize],
    channels: usize,
) -> Result<bool, NoMemory>
    ensures { IfOk result (λ once. IsTrue once → (f : ℕ → ℕ) → total f (count_up 0 channels) ≡ total f (flat_map sources_in elements.now) + total f clients.now) }
{
    let mut marks = no_marks(alloc, channels)?;
    if !mark_sources(&mut marks, elements) {
        return Ok(false);
    }
    if !mark_all(&mut marks, clients) {
        return Ok(false);
    }
    let is_once = are_marked(marks.as_slice());
    Ok(is_once)
}

/// So many channels without a mark.
fn no_marks(alloc: Global, count: usize) -> Result<List<bool>, NoMemory>
    ensures { IfOk result (λ marks. marks ≡ replicate count false) }
{
    let mut marks = List::new(alloc);
    for _channel in 0..count {
        marks.add(false)?;
    }
    Ok(marks)
}

/// Marks the channels that elements take; false where one has a mark.
fn mark_sources(marks: &mut List<bool>, elements: &[Element]) -> bool
    ensures { IsTrue result → IsMarked marks.old (flat_map sources_in elements.now) marks.new }
{
    for element in elements {
        if !mark_all(marks, element.sources.as_slice()) {
            return false;
        }
    }
    true
}

/// Marks channels; false where one has a mark.
fn mark_all(marks: &mut List<bool>, channels: &[usize]) -> bool
    ensures { IsTrue result → IsMarked marks.old channels.now marks.new }
{
    for channel in channels {
        if !mark(marks, *channel) {
            return false;
        }
    }
    true
}

/// Marks a channel; false where it has a mark, or is none.
fn mark(marks: &mut List<bool>, channel: usize) -> bool
    ensures { IsTrue result → IsMarked marks.old (channel ∷ []) marks.new }
{
    if channel >= marks.len() {
        return false;
    }
    if marks.set(channel, true) {
        return false;
    }
    true
}

/// Whether all channels have marks.
fn are_marked(marks: &[bool]) -> bool
    ensures { IsTrue result → (k : ℕ) → k < length marks.now → get_or marks.now k false ≡ true }
{
    for at in 0..marks.len() {
        if !marks[at] {
            return false;
        }
    }
    true
}
