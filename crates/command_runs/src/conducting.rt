//! How a command is conducted: its files are read, its work is made of their texts, and that is carried
//! out.
ghost use Rattle.std.specs.Prelude.{◌≡◌, ◌≤◌, ℕ, [], ◌∷◌, List as Listed, length, take, map, string_bytes};
ghost use Rattle.esi_links.specs.Counts.{NoneFell};
ghost use Rattle.esi_base.specs.Answers.{AnswersAs};
ghost use Rattle.command_runs.specs.Account.{Among, AreNamed, StaysWithin, effects_of};
ghost use Rattle.command_runs.specs.CarryOut.{CarriesOut, target_name};
ghost use Rattle.command_runs.specs.Line.{BlamesOne};
ghost use Rattle.command_runs.specs.Outside.{files_view, sink_view, IsOther};
ghost use Rattle.command_runs.specs.Ran.{AreReadable, CanFollow, Comes, Follows, HasCheckedTexts, ReadsFor};
ghost use Rattle.command_runs.specs.Statuses.{status_of};

use crate::printing::print;
use crate::reading::read_files;
use crate::writing::write_files;
use crate::{Command, Conclusion, Ending, Output, Printer, WorkStop};
use esi_base::{List, Octets, Stop};
use esi_links::{Files, OutStop, Sink};
use std::alloc::Global;

/// Conducts a command on words that match it: reads its files, makes its work of
/// their texts and carries that out.
pub(crate) fn conduct<C: Command, F: Files, O: Sink>(
    alloc: Global,
    command: &C,
    names: &[String],
    files: &mut F,
    out: &mut O,
) -> Conclusion
    requires { length names.now ≡ (C.account command.now).words }
    ensures comes { Comes (C.account command.now) (take (length (C.account command.now).limits) (map string_bytes names.now)) (map string_bytes names.now)
        (files_view (F.text files.old) (F.unreadable files.old) (F.log files.old) (F.read_faults files.old) (F.write_faults files.old))
        (files_view (F.text files.new) (F.unreadable files.new) (F.log files.new) (F.read_faults files.new) (F.write_faults files.new))
        (sink_view (O.octets out.old) (O.faults out.old)) (sink_view (O.octets out.new) (O.faults out.new)) result.ending result.report }
    ensures statuses { Among (status_of result.ending) (2 ∷ 3 ∷ 4 ∷ 8 ∷ (C.account command.now).ends) }
    ensures blames { BlamesOne result.ending (length (C.account command.now).limits) }
    ensures few { length (C.account command.now).limits ≤ length names.now }
    ensures reads { ReadsFor (C.account command.now).limits (take (length (C.account command.now).limits) (map string_bytes names.now))
        (F.log files.old) (F.log files.new) result.ending }
    ensures readable { HasCheckedTexts result.ending
        → AreReadable (F.unreadable files.old) (take (length (C.account command.now).limits) (map string_bytes names.now)) }
    ensures texts { (name : Listed ℕ) → IsOther name (map (target_name (map string_bytes names.now)) (C.account command.now).targets)
        → F.text files.new name ≡ F.text files.old name }
    ensures unreadables { (name : Listed ℕ) → IsOther name (map (target_name (map string_bytes names.now)) (C.account command.now).targets)
        → F.unreadable files.new name ≡ F.unreadable files.old name }
    ensures read_counts { NoneFell (F.read_faults files.old) (F.read_faults files.new) }
    ensures write_counts { NoneFell (F.write_faults files.old) (F.write_faults files.new) }
    ensures out_count { O.faults out.old ≤ O.faults out.new }
{
    let limits = command.limits();
    match read_files(alloc, files, &names[..limits.len()], limits) {
        Ok(texts) => work_on(alloc, command, texts, names, files, out),
        Err(OutStop::Fault) => Conclusion::without_report(Ending::ReadFault),
        Err(OutStop::NoMemory) => Conclusion::without_report(Ending::NoMemory),
    }
}

/// Makes a command's work of the texts that were read, and carries it out.
fn work_on<C: Command, F: Files, O: Sink>(
    alloc: Global,
    command: &C,
    texts: List<Octets>,
    names: &[String],
    files: &mut F,
    out: &mut O,
) -> Conclusion
    requires words { length names.now ≡ (C.account command.now).words }
    requires texts { length texts ≡ length (C.account command.now).limits }
    ensures follows { Follows ((C.account command.now).meaning texts) [] (map string_bytes names.now)
        (files_view (F.text files.old) (F.unreadable files.old) (F.log files.old) (F.read_faults files.old) (F.write_faults files.old))
        (files_view (F.text files.new) (F.unreadable files.new) (F.log files.new) (F.read_faults files.new) (F.write_faults files.new))
        (sink_view (O.octets out.old) (O.faults out.old)) (sink_view (O.octets out.new) (O.faults out.new)) result.ending result.report }
    ensures possible { CanFollow result.ending }
    ensures statuses { Among (status_of result.ending) (2 ∷ 3 ∷ 4 ∷ 8 ∷ (C.account command.now).ends) }
    ensures blames { BlamesOne result.ending (length (C.account command.now).limits) }
    ensures texts { (name : Listed ℕ) → IsOther name (map (target_name (map string_bytes names.now)) (C.account command.now).targets)
        → F.text files.new name ≡ F.text files.old name }
    ensures unreadables { (name : Listed ℕ) → IsOther name (map (target_name (map string_bytes names.now)) (C.account command.now).targets)
        → F.unreadable files.new name ≡ F.unreadable files.old name }
    ensures log { F.log files.new ≡ F.log files.old }
    ensures read_counts { NoneFell (F.read_faults files.old) (F.read_faults files.new) }
    ensures write_counts { NoneFell (F.write_faults files.old) (F.write_faults files.new) }
    ensures out_count { O.faults out.old ≤ O.faults out.new }
{
    match make(alloc, command, texts) {
        Ok(made) => carry_out(alloc, made, names, files, out),
        Err(Stop::Refused(file_refusal)) => Conclusion::without_report(Ending::Refused(
            file_refusal,
        )),
        Err(Stop::NoMemory) => Conclusion::without_report(Ending::NoMemory),
    }
}

/// Makes a command's work of texts, which are let go then.
fn make<C: Command>(
    alloc: Global,
    command: &C,
    texts: List<Octets>,
) -> Result<Output<C::Lines>, WorkStop>
    requires { length texts ≡ length (C.account command.now).limits }
    ensures makes { AnswersAs (effects_of C.Lines.left C.Lines.finish) ((C.account command.now).meaning texts) result }
    ensures within { StaysWithin (C.account command.now) C.Lines.finish result }
{
    command.work(alloc, texts.as_slice())
}

/// Carries a work out: writes its files, and then prints.
fn carry_out<P: Printer, F: Files, O: Sink>(
    alloc: Global,
    made: Output<P>,
    names: &[String],
    files: &mut F,
    out: &mut O,
) -> Conclusion
    requires { AreNamed (length names.now) made.written }
    ensures carries { CarriesOut (map string_bytes names.now) (effects_of P.left P.finish made)
        (files_view (F.text files.old) (F.unreadable files.old) (F.log files.old) (F.read_faults files.old) (F.write_faults files.old))
        (files_view (F.text files.new) (F.unreadable files.new) (F.log files.new) (F.read_faults files.new) (F.write_faults files.new))
        (sink_view (O.octets out.old) (O.faults out.old)) (sink_view (O.octets out.new) (O.faults out.new)) result.ending result.report }
    ensures log { F.log files.new ≡ F.log files.old }
    ensures out_count { O.faults out.old ≤ O.faults out.new }
{
    let Output { written, lines } = made;
    match write_files(alloc, files, names, written.as_slice()) {
        Ok(()) => print(alloc, lines, out),
        Err(OutStop::Fault) => Conclusion::without_report(Ending::WriteFault),
        Err(OutStop::NoMemory) => Conclusion::without_report(Ending::NoMemory),
    }
}
