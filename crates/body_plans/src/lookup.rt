//! What stands at an index.
ghost use Rattle.std.specs.Prelude.{◌≡◌, slice_get, option_copied};
ghost use Rattle.check_rules.specs.Scopes.{and_then};

use body_order::Elements;
use design_tree::Statement;

/// The item at an index, if there is one.
pub(crate) fn found_at<T>(items: &[T], index: Option<usize>) -> Option<&T>
    ensures { option_copied result ≡ and_then index (slice_get items.now) }
{
    match index {
        Some(found) => items.get(found),
        None => None,
    }
}

/// The element of a number, if there is one.
#[tactic(auto, using(crate::proofs::Rows::referred_at))]
pub(crate) fn element_at<'a>(elements: &Elements<'a>, number: usize) -> Option<&'a Statement>
    ensures { option_copied result ≡ slice_get elements.now number }
{
    elements.statements().get(number).copied()
}
