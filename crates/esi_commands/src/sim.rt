//! `sim DESIGN STIM`: simulates a design by a stimulus, and prints what it hands out.
ghost use Rattle.std.specs.Prelude.{map, string_bytes};
ghost use Rattle.command_runs.specs.Outside.{outside_of};
ghost use Rattle.command_runs.specs.Ran.{Runs};
ghost use Rattle.esi_commands.specs.Sim.{sim_account};
ghost use Rattle.esi_commands.specs.SimLaws.{sim_cut, sim_promised};

use crate::input::check_input;
use crate::output::SimulationLines;
use command_runs::{Command, Outcome, Output, WorkStop, run_command};
use esi_base::{List, Octets};
use esi_links::{Files, Sink};
use esi_text::{LONGEST_DESIGN, LONGEST_STIMULUS};
use pipe_cells::simulate;
use std::alloc::Global;

/// The limits of the design and of the stimulus.
const LIMITS: [usize; 2] = [LONGEST_DESIGN, LONGEST_STIMULUS];

/// The command `sim DESIGN STIM`.
pub struct SimCommand;

impl Command for SimCommand {
    type Lines = SimulationLines;

    ghost account = { λ _. sim_account };

    fn words(&self) -> usize {
        2
    }

    fn limits(&self) -> &[usize] {
        &LIMITS
    }

    /// The texts are checked, the design first; the input that they ask for is simulated, and the lines of
    /// its simulation are printed.
    fn work(&self, alloc: Global, texts: &[Octets]) -> Result<Output<SimulationLines>, WorkStop> {
        let input = check_input(alloc, texts[0].as_slice(), texts[1].as_slice())?;
        let pipe = simulate(alloc, input.stages, input.steps.as_slice())?;
        Ok(Output {
            written: List::new(alloc),
            lines: SimulationLines::new(alloc, pipe),
        })
    }

    ghost cut = { λ _ texts. sim_cut texts };

    ghost promised = { λ _ texts. sim_promised texts };
}

/// Runs the command `sim DESIGN STIM`; `names` are the words after `sim`. Files are read through `files`,
/// what the command prints goes to `out`, and the status's line to `err`.
pub fn run_sim<F: Files, O: Sink, E: Sink>(
    alloc: Global,
    names: &[String],
    files: &mut F,
    out: &mut O,
    err: &mut E,
) -> Outcome
    ensures { Runs sim_account (map string_bytes names.now)
        (outside_of F.Files O.Sink E.Sink files.old out.old err.old) (outside_of F.Files O.Sink E.Sink files.new out.new err.new) result }
{
    run_command(alloc, &SimCommand, names, files, out, err)
}
