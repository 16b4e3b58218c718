//! The order itself.
ghost use Rattle.std.specs.Prelude.{◌≡◌, All, IfOk, length};
ghost use Rattle.element_order.specs.Orders.{AllBelow, ordered};

use crate::worklist::Worklist;
use esi_base::{List, NoMemory};
use std::alloc::Global;

/// The elements in element order: again and again the first one in text order all of whose sources are
/// placed, until none is left that is ready. Those that depend on themselves, and those after them, are
/// not there. `needs` has for each element the places of those that it needs. It takes time in n log n.
pub fn element_order(alloc: Global, needs: &[List<usize>]) -> Result<List<usize>, NoMemory>
    requires { All (AllBelow (length needs.now)) needs.now }
    ensures { IfOk result (λ placed. placed ≡ ordered needs.now) }
{
    let mut worklist = Worklist::new(alloc, needs)?;
    while worklist.place_next()? {}
    Ok(worklist.placed)
}
