//! What the program takes from the system and gives back to it: the words of its command line, and its
//! exit code.
ghost use Rattle.std.specs.Prelude.{◌≡◌, [], drop, IfOk, IsErr};
ghost use Rattle.std.specs.Iterator.{IsFinite};
ghost use Rattle.std.specs.Iterator.Runs.{WholeRun};
ghost use Rattle.std.specs.Process.{exit_status};
ghost use Rattle.std.specs.Result.{ForOk};

use command_runs::Outcome;
use esi_base::NoMemory;
use std::alloc::Global;
use std::io;
use std::process::ExitCode;

/// The words of a command: the arguments after the first, which is the program's own name. Arguments
/// that are no text are no words at all, so that they match no command.
pub fn command_words<I: Iterator<Item = String> + Drop>(
    alloc: Global,
    arguments: io::Result<I>,
) -> Result<Vec<String>, NoMemory>
    requires can { ForOk arguments (λ it. I.can_next it) }
    requires ends { ForOk arguments (λ it. IsFinite (I.remaining it)) }
    ensures words { IfOk result (λ words. IfOk arguments (λ it.
        WholeRun I.next_gives it (λ run. words.items ≡ drop 1 run.items))) }
    ensures no_text { IsErr arguments → IfOk result (λ words. words.items ≡ []) }
{
    match arguments {
        Ok(arguments) => words_behind(alloc, arguments),
        Err(error) if error.kind() == io::ErrorKind::OutOfMemory => Err(NoMemory),
        Err(_) => Ok(Vec::new(alloc)),
    }
}

/// The arguments after the first.
fn words_behind<I: Iterator<Item = String> + Drop>(
    alloc: Global,
    arguments: I,
) -> Result<Vec<String>, NoMemory>
    requires can { I.can_next arguments }
    requires ends { IsFinite (I.remaining arguments) }
    ensures { IfOk result (λ words. WholeRun I.next_gives arguments (λ run. words.items ≡ drop 1 run.items)) }
{
    let words = arguments.skip(1).collect(alloc)?;
    Ok(words)
}

/// The exit code of a command that ended: its status.
pub fn exit_code(outcome: &Outcome) -> ExitCode
    ensures { exit_status result ≡ outcome.now.status }
{
    ExitCode::from(outcome.status)
}
