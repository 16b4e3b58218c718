//! How much rings hold and a session takes.
ghost use Rattle.std.specs.Prelude.{List};
ghost use Rattle.cycle_rules.specs.Circuit.{Circuit};
ghost use Rattle.cycle_rules.specs.Simulation.{Simulation, after_actions};
ghost use Rattle.cycle_rules.specs.Sizes.{IsWithinLimits};
ghost use Rattle.cycle_rules.specs.declared.action.Action.{Action};

/// The law of sizes, for any circuit and any number of channels: over any actions no ring comes to hold
/// more than 16 values, and the session takes no more than 1,048,576. `S` is what the circuit consists
/// of.
pub fn rings_stay_within<S>()
    ensures { (circuit : Circuit S) (actions : List Action) (sim : Simulation S) → IsWithinLimits sim
        → IsWithinLimits (after_actions circuit actions sim) }
{}
