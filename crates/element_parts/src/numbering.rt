//! What stands for the elements of a body, at the end of a table.
ghost use Rattle.std.specs.Prelude.{◌≡◌, OnOk};
ghost use Rattle.element_parts.specs.Numbering.{body_parts, with_element, numbered_along};

use body_plans::OrderedElement;
use channel_typing::TypedElement;
use esi_base::{List, NoMemory};
use netlist::Part;

/// Adds the elements of a body, in an order of their numbers, and the parts that stand for them.
#[tactic(auto, using(crate::proofs::Turns::numbered_more, crate::proofs::Turns::nothing_typed))]
pub(crate) fn add_elements(
    parts: &mut List<Part>,
    elements: &mut List<OrderedElement>,
    order: &[usize],
    typed: List<TypedElement>,
) -> Result<(), NoMemory>
    ensures { OnOk result (body_parts parts.new elements.new ≡ numbered_along (body_parts parts.old elements.old) order.now typed) }
{
    let mut left = typed.into_vec().into_iter();
    for number in order {
        match left.next() {
            None => return Ok(()),
            Some(element) => add_element(parts, elements, *number, element)?,
        }
    }
    Ok(())
}

/// Adds an element of this number, and the part that stands for it.
fn add_element(
    parts: &mut List<Part>,
    elements: &mut List<OrderedElement>,
    number: usize,
    element: TypedElement,
) -> Result<(), NoMemory>
    ensures { OnOk result (body_parts parts.new elements.new ≡ with_element (body_parts parts.old elements.old) number element) }
{
    let part = parts.len();
    match element {
        TypedElement::Stages { count, width } => {
            parts.add(Part::Stage { width })?;
            elements.add(OrderedElement {
                number,
                part,
                count: count as usize,
                width,
            })
        }
        TypedElement::Part { part: own, width } => {
            parts.add(own)?;
            elements.add(OrderedElement {
                number,
                part,
                count: 1,
                width,
            })
        }
        TypedElement::Instance | TypedElement::Unknown => elements.add(OrderedElement {
            number,
            part,
            count: 1,
            width: 0,
        }),
    }
}
