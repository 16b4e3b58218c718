//! The first of some places.
ghost use Rattle.std.specs.Prelude.{◌≡◌, ℕ, List, Contains};
ghost use Rattle.name_tables.specs.FirstPlaces.{Reports, earlier as earlier_of, least};

/// The earlier of two places, of which the first may be none.
pub fn earlier(first: Option<usize>, at: usize) -> Option<usize>
    ensures { result ≡ earlier_of first at }
{
    match first {
        None => Some(at),
        Some(other) => Some(other.min(at)),
    }
}

/// The least of some places is the first at which one of them stands, and there is none exactly where there
/// is no place. It does nothing when it runs.
#[tactic(auto, using(crate::specs::PlaceLaws::least_reports))]
pub fn least_place_law()
    ensures { (places : List ℕ) → Reports (Contains places) (least places) }
{}
