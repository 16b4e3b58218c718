//! The laws of the elements.
ghost use Rattle.element_nets.specs.Maps.{MapsObey};
ghost use Rattle.element_nets.specs.Joins.{JoinsObey};
ghost use Rattle.element_nets.specs.Scans.{ScansObey};

/// A map whose body's nets stand in a complete netlist obeys its law in every run. It does nothing when it runs.
pub fn maps_obey()
    ensures { MapsObey }
{}

/// A join whose nets stand in a complete netlist obeys its law in every run. It does nothing when it runs.
pub fn joins_obey()
    ensures { JoinsObey }
{}

/// A scan whose nets stand in a complete netlist obeys its law in every run. It does nothing when it runs.
pub fn scans_obey()
    ensures { ScansObey }
{}
