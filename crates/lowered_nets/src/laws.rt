//! The laws of the elements of a lowered netlist.
ghost use Rattle.lowered_nets.specs.Elements.{LoweredElementsHaveTheirNets};
ghost use Rattle.lowered_nets.specs.Ended.{LoweringEnds, LoweredNetlistsAreComplete};

/// Where a flat list can be lowered and its netlist keeps the rules of netlists, each of its elements has its registers, its forward,
/// backward and next nets and the next nets of its registers there, between the nets of the channels that it takes and of those that it
/// makes.
pub fn lowered_elements_have_their_nets()
    ensures { LoweredElementsHaveTheirNets }
{}

/// Then all passes have come to their ends (`ended`), and each register has its next net (`complete`).
pub fn lowering_comes_to_its_end()
    ensures ended { LoweringEnds }
    ensures complete { LoweredNetlistsAreComplete }
{}
