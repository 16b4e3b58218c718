//! `format DESIGN`: prints a design as its canonical text.
ghost use Rattle.std.specs.Prelude.{map, string_bytes};
ghost use Rattle.command_runs.specs.Outside.{outside_of};
ghost use Rattle.command_runs.specs.Ran.{Runs};
ghost use Rattle.esi_commands.specs.Format.{format_account};
ghost use Rattle.esi_commands.specs.FormatLaws.{format_cut, format_promised};

use command_runs::{
    Command, Finish, Outcome, Output, WholeText, WorkStop, run_command, stop_in_file,
};
use esi_base::{List, Octets};
use esi_links::{Files, Sink};
use esi_text::{LONGEST_DESIGN, print_design, read_design};
use std::alloc::Global;

/// The limit of the design.
const LIMITS: [usize; 1] = [LONGEST_DESIGN];

/// The command `format DESIGN`.
pub struct FormatCommand;

impl Command for FormatCommand {
    type Lines = WholeText;

    ghost account = { λ _. format_account };

    fn words(&self) -> usize {
        1
    }

    fn limits(&self) -> &[usize] {
        &LIMITS
    }

    /// The design is read, and its canonical text is printed.
    fn work(&self, alloc: Global, texts: &[Octets]) -> Result<Output<WholeText>, WorkStop> {
        let design = match read_design(alloc, texts[0].as_slice()) {
            Ok(design) => design,
            Err(stop) => return Err(stop_in_file(0, stop)),
        };
        let text = print_design(alloc, &design)?;
        Ok(Output {
            written: List::new(alloc),
            lines: WholeText::new(text, Finish::done(alloc)),
        })
    }

    ghost cut = { λ _ texts. format_cut texts };

    ghost promised = { λ _ texts. format_promised texts };
}

/// Runs the command `format DESIGN`; `names` are the words after `format`. Files are read through `files`,
/// what the command prints goes to `out`, and the status's line to `err`.
pub fn run_format<F: Files, O: Sink, E: Sink>(
    alloc: Global,
    names: &[String],
    files: &mut F,
    out: &mut O,
    err: &mut E,
) -> Outcome
    ensures { Runs format_account (map string_bytes names.now)
        (outside_of F.Files O.Sink E.Sink files.old out.old err.old) (outside_of F.Files O.Sink E.Sink files.new out.new err.new) result }
{
    run_command(alloc, &FormatCommand, names, files, out, err)
}
