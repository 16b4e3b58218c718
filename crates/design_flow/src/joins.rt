//! Whether a flat list joins channels.
ghost use Rattle.std.specs.Prelude.{◌≡◌};
ghost use Rattle.std.specs.List.{list_any};
ghost use Rattle.std.specs.Option.{option_copied};
ghost use Rattle.design_flow.specs.Elements.{is_join as joins, is_joined as joined_by};

use crate::part_at::part_at;
use flat_design::Element;
use netlist::Part;

/// Whether any element is a join. `parts` is the table of the design's parts. It takes no memory.
pub fn has_join(parts: &[Part], elements: &[Element]) -> bool
    ensures { result ≡ list_any (joined_by parts.now) elements.now }
{
    elements.iter().any(|element| is_joined(parts, element))
}

/// Whether an element is a join.
fn is_joined(parts: &[Part], element: &Element) -> bool
    ensures { result ≡ joined_by parts.now element.now }
{
    is_join(part_at(parts, element))
}

/// Whether a part is a join; none is not.
fn is_join(part: Option<&Part>) -> bool
    ensures { result ≡ joins (option_copied part.entry) }
{
    matches!(part, Some(Part::Join))
}
