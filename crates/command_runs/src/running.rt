//! A command is run: conducted and concluded.
ghost use Rattle.std.specs.Prelude.{map, string_bytes};
ghost use Rattle.command_runs.specs.Outside.{outside_of};
ghost use Rattle.command_runs.specs.Ran.{Runs};

use crate::conducting::conduct;
use crate::{Command, Conclusion, Ending, Outcome, conclude};
use esi_links::{Files, Sink};
use std::alloc::Global;

/// Runs a command; `names` are the words after its own. Files are read and written through `files`,
/// what the command prints goes to `out`, and the status's line to `err`.
pub fn run_command<C: Command, F: Files, O: Sink, E: Sink>(
    alloc: Global,
    command: &C,
    names: &[String],
    files: &mut F,
    out: &mut O,
    err: &mut E,
) -> Outcome
    ensures runs { Runs (C.account command.now) (map string_bytes names.now) (outside_of F.Files O.Sink E.Sink files.old out.old err.old)
        (outside_of F.Files O.Sink E.Sink files.new out.new err.new) result }
{
    if names.len() != command.words() {
        return conclude(alloc, Ending::Usage, None, &[], err);
    }
    let Conclusion { ending, report } = conduct(alloc, command, names, files, out);
    conclude(alloc, ending, report, names, err)
}
