//! Whether a flat list is good.
ghost use Rattle.std.specs.Prelude.{◌≡◌, length, IfOk, IfSome, IsTrue};
ghost use Rattle.flat_design.specs.Laying.{count_up};
ghost use Rattle.flat_design.specs.FlatLaws.{AreNumbered, Below, IsFlatDesign};
ghost use Rattle.flat_checks.specs.Numbered.{IsNext};

use crate::marks::are_used_once;
use esi_base::NoMemory;
use flat_design::{Element, Flat};
use std::alloc::Global;

/// Whether the elements of a flat list make all channels but the first ones, `servers` many, in order, each before it is used, and each
/// channel is used once, by an element or as one of the channels of the to-client endpoints.
pub fn is_flat_design(
    alloc: Global,
    flat: &Flat,
    servers: usize,
    clients: &[usize],
) -> Result<bool, NoMemory>
    ensures { IfOk result (λ good. IsTrue good → IsFlatDesign servers flat.now clients.now) }
{
    let elements = flat.elements.as_slice();
    let channels = flat.widths.len();
    if !are_numbered(elements, servers, channels) {
        return Ok(false);
    }
    if !are_below(clients, channels) {
        return Ok(false);
    }
    let is_once = are_used_once(alloc, elements, clients, channels)?;
    Ok(is_once)
}

/// Whether each element takes earlier channels, and makes the next ones.
#[tactic(auto, using(crate::specs::Numbered::numbered_none, crate::specs::Numbered::numbered_item, crate::specs::Numbered::numbered_all))]
fn are_numbered(elements: &[Element], servers: usize, channels: usize) -> bool
    ensures { IsTrue result → AreNumbered servers elements.now channels }
{
    let mut made = servers;
    for element in elements {
        match behind(element, made) {
            Some(next) => made = next,
            None => return false,
        }
    }
    made == channels
}

/// How many channels there are behind an element, where it takes earlier ones and makes the next ones.
fn behind(element: &Element, made: usize) -> Option<usize>
    ensures { IfSome result (λ next. IsNext made element.now next) }
{
    let sources = element.sources.as_slice();
    let sinks = element.sinks.as_slice();
    if !are_below(sources, made) {
        return None;
    }
    if !count_from(sinks, made) {
        return None;
    }
    made.checked_add(sinks.len())
}

/// Whether these are the next channels.
#[tactic(auto, using(crate::specs::Numbered::counts_are))]
fn count_from(channels: &[usize], first: usize) -> bool
    ensures { IsTrue result → channels.now ≡ count_up first (length channels.now) }
{
    for at in 0..channels.len() {
        let channel = channels[at];
        if channel < first || channel - first != at {
            return false;
        }
    }
    true
}

/// Whether all channels are below a number.
#[tactic(auto, using(crate::specs::Numbered::all_below))]
fn are_below(channels: &[usize], bound: usize) -> bool
    ensures { IsTrue result → Below bound channels.now }
{
    for at in 0..channels.len() {
        if channels[at] >= bound {
            return false;
        }
    }
    true
}
