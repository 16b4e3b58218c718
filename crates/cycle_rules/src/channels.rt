//! What becomes of the channels.
ghost use Rattle.std.specs.Prelude.{List};
ghost use Rattle.cycle_rules.specs.Circuit.{Circuit};
ghost use Rattle.cycle_rules.specs.Simulation.{Simulation, HasChannels, after_actions};
ghost use Rattle.cycle_rules.specs.declared.action.Action.{Action};

/// The law of channels, for any circuit and any number of channels: a simulation that has a ring, a
/// switch and a place to wait for each of its channels has them after any actions, so that no ring is
/// lost. `S` is what the circuit consists of.
pub fn channels_stay<S>()
    ensures { (circuit : Circuit S) (actions : List Action) (sim : Simulation S) → HasChannels circuit sim
        → HasChannels circuit (after_actions circuit actions sim) }
{}
