//! The parts of elements.
ghost use Rattle.std.specs.Prelude.{◌≡◌, slice_get};
ghost use Rattle.std.specs.Option.{option_copied};

use flat_design::Element;
use netlist::Part;

/// The part of an element; None where the table has no such part.
pub(crate) fn part_at<'a>(parts: &'a [Part], element: &Element) -> Option<&'a Part>
    ensures { option_copied result ≡ slice_get parts.now element.now.part }
{
    parts.get(element.part)
}
