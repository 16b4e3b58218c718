//! What holds of the module of each lowered netlist, as the contract of a function that does nothing.
ghost use Rattle.lowered_modules.specs.Interfaces.{LoweredInterfaces, LoweredModulesAreGood};

/// The endpoints of a lowered netlist, with the nets of its ports, are an interface of it, so its module is good. It does nothing when
/// it runs.
#[tactic(auto, using(crate::specs::Whole::interfaces_are_lowered, crate::specs::Whole::lowered_modules_are_good))]
pub fn lowered_interfaces_law()
    ensures interface { LoweredInterfaces }
    ensures good { LoweredModulesAreGood }
{}
