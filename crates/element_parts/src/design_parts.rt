//! What stands for the elements of a design.
use body_plans::OrderedElement;
use esi_base::List;
use netlist::Part;

/// What stands for the elements of a design.
#[derive(Debug, Drop)]
pub struct DesignParts {
    /// The table of the parts, body after body, and in each in element order. Of stages in a row it has one.
    pub parts: List<Part>,
    /// For each body its elements, in element order, each with the number of its part in the table. An
    /// instance has no part.
    pub ordered: List<List<OrderedElement>>,
}
