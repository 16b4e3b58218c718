//! What stands at an index that was found.
ghost use Rattle.std.specs.Prelude.{◌≡◌, slice_get, option_copied};
ghost use Rattle.check_rules.specs.Scopes.{and_then};
ghost use Rattle.design_scopes.specs.Tables.{get_below};

/// The item at an index, if there is one.
pub fn at<T>(items: &[T], index: Option<usize>) -> Option<&T>
    ensures { option_copied result ≡ and_then index (slice_get items.now) }
{
    match index {
        Some(found) => items.get(found),
        None => None,
    }
}

/// The item at an index that is less than a bound, if there is one.
pub fn at_below<T>(items: &[T], bound: usize, index: Option<usize>) -> Option<&T>
    ensures { option_copied result ≡ and_then index (get_below bound items.now) }
{
    match index {
        Some(found) => {
            if found < bound {
                items.get(found)
            } else {
                None
            }
        }
        None => None,
    }
}
