//! The files that a command writes.
ghost use Rattle.std.specs.Prelude.{◌≡◌, ◌<◌, length, map, string_bytes, IfOk, OnOk, IsErrOf};
ghost use Rattle.command_runs.specs.Account.{AreNamed};
ghost use Rattle.command_runs.specs.CarryOut.{target_name, PutsText, PutsTexts, FailsToPut, FailsAtFile, LacksAtFile};
ghost use Rattle.command_runs.specs.Outside.{files_view, SameFiles};

use crate::{FileText, Target};
use esi_links::{Files, OutStop};
use std::alloc::{AllocError, Global};

/// Writes files, in order, none after one that was not written. `names` are the words after the
/// command.
pub(crate) fn write_files<F: Files>(
    alloc: Global,
    files: &mut F,
    names: &[String],
    written: &[FileText],
) -> Result<(), OutStop>
    requires { AreNamed (length names.now) written.now }
    ensures written { OnOk result (PutsTexts (map string_bytes names.now) written.now
        (files_view (F.text files.old) (F.unreadable files.old) (F.log files.old) (F.read_faults files.old) (F.write_faults files.old))
        (files_view (F.text files.new) (F.unreadable files.new) (F.log files.new) (F.read_faults files.new) (F.write_faults files.new))) }
    ensures failed { IsErrOf result OutStop.Fault → FailsAtFile (map string_bytes names.now) written.now
        (files_view (F.text files.old) (F.unreadable files.old) (F.log files.old) (F.read_faults files.old) (F.write_faults files.old))
        (files_view (F.text files.new) (F.unreadable files.new) (F.log files.new) (F.read_faults files.new) (F.write_faults files.new)) }
    ensures no_memory { IsErrOf result OutStop.NoMemory → LacksAtFile (map string_bytes names.now) written.now
        (files_view (F.text files.old) (F.unreadable files.old) (F.log files.old) (F.read_faults files.old) (F.write_faults files.old))
        (files_view (F.text files.new) (F.unreadable files.new) (F.log files.new) (F.read_faults files.new) (F.write_faults files.new)) }
    ensures log { F.log files.new ≡ F.log files.old }
{
    for file in written {
        write_file(alloc, files, names, file)?;
    }
    Ok(())
}

/// Writes one file.
fn write_file<F: Files>(
    alloc: Global,
    files: &mut F,
    names: &[String],
    file: &FileText,
) -> Result<(), OutStop>
    requires { file.now.target.word < length names.now }
    ensures written { OnOk result (PutsText (target_name (map string_bytes names.now) file.now.target) file.now.text
        (files_view (F.text files.old) (F.unreadable files.old) (F.log files.old) (F.read_faults files.old) (F.write_faults files.old))
        (files_view (F.text files.new) (F.unreadable files.new) (F.log files.new) (F.read_faults files.new) (F.write_faults files.new))) }
    ensures failed { IsErrOf result OutStop.Fault → FailsToPut (target_name (map string_bytes names.now) file.now.target)
        (files_view (F.text files.old) (F.unreadable files.old) (F.log files.old) (F.read_faults files.old) (F.write_faults files.old))
        (files_view (F.text files.new) (F.unreadable files.new) (F.log files.new) (F.read_faults files.new) (F.write_faults files.new)) }
    ensures no_memory { IsErrOf result OutStop.NoMemory → SameFiles
        (files_view (F.text files.old) (F.unreadable files.old) (F.log files.old) (F.read_faults files.old) (F.write_faults files.old))
        (files_view (F.text files.new) (F.unreadable files.new) (F.log files.new) (F.read_faults files.new) (F.write_faults files.new)) }
    ensures log { F.log files.new ≡ F.log files.old }
{
    let name = file_name(alloc, names, file.target)?;
    files.write(name.as_str(), file.text.as_slice())
}

/// The name of a file that is written.
fn file_name(alloc: Global, names: &[String], target: Target) -> Result<String, AllocError>
    requires { target.word < length names.now }
    ensures { IfOk result (λ name. string_bytes name ≡ target_name (map string_bytes names.now) target) }
{
    let mut name = String::from_str(alloc, names[target.word as usize].as_str())?;
    name.push_str(target.suffix.text())?;
    Ok(name)
}
