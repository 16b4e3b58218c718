//! To-server channels that offer the fronts of rings.
ghost use Rattle.element_load.specs.Rings.{RingsAreLines};

/// Channels that offer the fronts of rings, which leave them where they are transferred while values join at
/// the ends alone, keep their refused offers; and they offer what stands in line, which the laws of the load
/// ask for.
pub fn rings_are_lines<C>()
    ensures { RingsAreLines C }
{}
