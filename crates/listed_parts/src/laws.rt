//! What stands for the elements of a design that breaks no rule.
ghost use Rattle.listed_parts.specs.Listed.{EachListed};

use element_order::order_law;

/// In a design that breaks no rule, a part of the table stands for each operation of its bodies: the one
/// whose number its element has. It does nothing when it runs.
pub fn listed_law()
    ensures { EachListed }
{
    order_law();
}
