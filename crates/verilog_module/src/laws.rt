//! What holds of the module of a netlist, as the contracts of functions that do nothing.
ghost use Rattle.verilog_module.specs.Statements.{ModulesAreGood, RunsAreMeant, MeaningsAreRuns};

/// The module of a complete netlist is good, where its first nets are the inputs that its endpoints have, the nets of its output
/// ports have the widths of these, and names and types of endpoints are good.
#[tactic(auto, using(crate::specs::GoodLaws::modules_are_good))]
pub fn good_module_law()
    ensures { ModulesAreGood }
{}

/// For all register contents at the start and every list of inputs, each net of the module of a complete netlist has, cycle by
/// cycle, the word of the netlist's run: the run is one that the module means, and the module means no other.
#[tactic(auto, using(crate::specs::MeaningLaws::runs_are_meant, crate::specs::MeaningLaws::meanings_are_runs))]
pub fn module_meaning_law()
    ensures runs { RunsAreMeant }
    ensures only { MeaningsAreRuns }
{}
