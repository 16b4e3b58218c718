//! What becomes of the values that are put.
ghost use Rattle.std.specs.Prelude.{ℕ, ◌<◌, List};
ghost use Rattle.cycle_rules.specs.Circuit.{Circuit};
ghost use Rattle.cycle_rules.specs.Puts.{LosesNone};
ghost use Rattle.cycle_rules.specs.Simulation.{Simulation, HasChannels, after_actions};
ghost use Rattle.cycle_rules.specs.declared.action.Action.{Action};

/// The law of puts, for any circuit and any number of channels: over any actions, what was taken on a
/// channel, followed by what waits there, is what was before, followed by what the actions put on the
/// channel, in order. So no value that is put is lost, made or changed before it is taken. `S` is what
/// the circuit consists of.
pub fn puts_are_kept<S>()
    ensures { (circuit : Circuit S) (actions : List Action) (sim : Simulation S) (channel : ℕ)
        → HasChannels circuit sim → channel < circuit.to_server_count
        → LosesNone channel actions sim (after_actions circuit actions sim) }
{}
