//! The first name that stands there twice.
ghost use Rattle.std.specs.Prelude.{◌≡◌, ◌↔◌, ℕ, List, IfOk, map, Contains};
ghost use Rattle.name_tables.specs.FirstPlaces.{least_from, found_after};
ghost use Rattle.name_tables.specs.Labels.{Label, Occurrence};
ghost use Rattle.name_tables.specs.Repeats.{IsRepeat, IsUnknown};
ghost use Rattle.name_tables.specs.Lists.{repeats, missing};
ghost use Rattle.name_tables.specs.Keys.{occurrence_of};

use crate::first_place::earlier;
use crate::key::Mark;
use esi_base::NoMemory;
use std::alloc::Global;
use std::collections::BTreeSet;

/// The least place at which one of the names stands that stood before in the list, or the place found
/// before, if that is less. It takes time in n log n.
pub fn first_repeat(
    alloc: Global,
    first: Option<usize>,
    marks: &[Mark<'_>],
) -> Result<Option<usize>, NoMemory>
    ensures { IfOk result (λ place. place ≡ least_from first (repeats (map occurrence_of marks.now))) }
{
    let mut before = BTreeSet::new(alloc);
    let mut place = first;
    for mark in marks {
        let is_new = before.insert(mark.key)?;
        place = place_after(place, is_new, mark.at);
    }
    Ok(place)
}

/// The place found so far, after a name that is new or stood before.
fn place_after(place: Option<usize>, is_new: bool, at: usize) -> Option<usize>
    ensures { result ≡ found_after place is_new at }
{
    if is_new { place } else { earlier(place, at) }
}

/// The places of repeats are those at which a name stands that stood before, and the places of missing names
/// those of names that are none of the known ones. It does nothing when it runs.
#[tactic(auto, using(crate::specs::ListLaws::repeats_are, crate::specs::ListLaws::are_repeats, crate::specs::ListLaws::missing_are, crate::specs::ListLaws::are_missing))]
pub fn name_places_law()
    ensures repeats { (names : List Occurrence) (at : ℕ) → Contains (repeats names) at ↔ IsRepeat names at }
    ensures missing { (known : List Label) (names : List Occurrence) (at : ℕ) → Contains (missing known names) at ↔ IsUnknown known names at }
{}
