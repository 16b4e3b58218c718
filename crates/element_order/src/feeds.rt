//! Which elements need each element.
ghost use Rattle.std.specs.Prelude.{◌≡◌, ◌<◌, [], All, IfOk, OnOk, length, replicate};
ghost use Rattle.element_order.specs.Orders.{AllBelow};
ghost use Rattle.element_order.specs.Worklists.{IsFeeds, noted, all_noted};

use esi_base::{List, NoMemory};
use std::alloc::Global;

/// For each element those that need it, as often as they do.
pub(crate) fn feeds_of(alloc: Global, needs: &[List<usize>]) -> Result<Vec<List<usize>>, NoMemory>
    requires { All (AllBelow (length needs.now)) needs.now }
    ensures { IfOk result (λ feeds. IsFeeds needs.now feeds.items) }
{
    let mut feeds = empty_lists(alloc, needs.len())?;
    for (element, sources) in needs.iter().enumerate() {
        note_all(&mut feeds, sources.as_slice(), element)?;
    }
    Ok(feeds)
}

/// As many empty lists.
fn empty_lists(alloc: Global, count: usize) -> Result<Vec<List<usize>>, NoMemory>
    ensures { IfOk result (λ lists. lists.items ≡ replicate count []) }
{
    let mut lists = Vec::new(alloc);
    for _place in 0..count {
        lists.push(List::new(alloc))?;
    }
    Ok(lists)
}

/// Notes an element at each of its sources.
fn note_all(feeds: &mut Vec<List<usize>>, sources: &[usize], element: usize) -> Result<(), NoMemory>
    requires { AllBelow (length feeds.old.items) sources.now }
    ensures noted { OnOk result (feeds.new.items ≡ all_noted feeds.old.items sources.now element) }
    ensures count { length feeds.new.items ≡ length feeds.old.items }
{
    for source in sources {
        note(feeds, *source, element)?;
    }
    Ok(())
}

/// Notes an element at one of its sources.
fn note(feeds: &mut Vec<List<usize>>, source: usize, element: usize) -> Result<(), NoMemory>
    requires { source < length feeds.old.items }
    ensures noted { OnOk result (feeds.new.items ≡ noted feeds.old.items source element) }
    ensures count { length feeds.new.items ≡ length feeds.old.items }
{
    let fed = &mut feeds[source];
    fed.add(element)
}
