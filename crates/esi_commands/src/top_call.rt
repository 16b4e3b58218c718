//! The top call: one command, from its words to its outcome.
ghost use Rattle.std.specs.Prelude.{◌≡◌, ◌∷◌, false, map, string_bytes};
ghost use Rattle.command_runs.specs.Outside.{outside_of};
ghost use Rattle.esi_commands.specs.Table.{OneRow, RunsWords, table};

use crate::format::run_format;
use crate::sim::run_sim;
use command_runs::{Ending, Outcome, conclude};
use esi_links::{Files, Links, Sink};
use std::alloc::Global;

/// Runs the command that the words ask for; they are the words after the program's name. Files are
/// read and written through `files`, what the command prints goes to `out`, the status's line to
/// `err`, and connections come over `links`, which are not started.
pub fn run<F: Files, O: Sink, E: Sink, L: Links>(
    alloc: Global,
    words: &[String],
    files: &mut F,
    out: &mut O,
    err: &mut E,
    links: &mut L,
) -> Outcome
    requires { L.started links.old ≡ false }

    // The command whose row the words match was run, or the usage line was written.
    ensures runs { RunsWords table (map string_bytes words.now)
        (outside_of F.Files O.Sink E.Sink files.old out.old err.old) (outside_of F.Files O.Sink E.Sink files.new out.new err.new) result }
    ensures links { links.new ≡ links.old }
{
    match words {
        [command, names @ ..] => run_named(alloc, command.as_str(), names, files, out, err),
        [] => conclude(alloc, Ending::Usage, None, &[], err),
    }
}

/// Runs the command with this word, on the words after it.
fn run_named<F: Files, O: Sink, E: Sink>(
    alloc: Global,
    command: &str,
    names: &[String],
    files: &mut F,
    out: &mut O,
    err: &mut E,
) -> Outcome
    ensures { RunsWords table (command.now ∷ map string_bytes names.now)
        (outside_of F.Files O.Sink E.Sink files.old out.old err.old) (outside_of F.Files O.Sink E.Sink files.new out.new err.new) result }
{
    if command == "sim" {
        return run_sim(alloc, names, files, out, err);
    }
    if command == "format" {
        return run_format(alloc, names, files, out, err);
    }
    conclude(alloc, Ending::Usage, None, &[], err)
}

/// No words match two rows of the table of commands.
pub fn one_row_law()
    ensures { OneRow table }
{}
