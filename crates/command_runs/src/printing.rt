//! What a command prints: its lines, piece by piece, and its closing lines.
ghost use Rattle.std.specs.Prelude.{◌≡◌, ◌≤◌, ◌<◌, ◌++◌, [], true, false, length, IfOk, OnOk, IsErrOf};
ghost use Rattle.esi_links.specs.Counts.{HasCause};
ghost use Rattle.esi_links.specs.Growth.{Grows, GrowsByPrefix};
ghost use Rattle.command_runs.specs.CarryOut.{EndsInPrint};
ghost use Rattle.command_runs.specs.Conclusions.{cut_short_of};
ghost use Rattle.command_runs.specs.Outside.{sink_view};
ghost use Rattle.command_runs.specs.Pieces.{PrintsSome};

use crate::ending::Conclusion;
use crate::{End, Ending, Finish, Printer};
use esi_base::Octets;
use esi_links::{OutStop, Sink, write_whole};
use std::alloc::Global;

/// Prints lines, and the closing lines of the finish after them.
pub(crate) fn print<P: Printer, O: Sink>(alloc: Global, lines: P, out: &mut O) -> Conclusion
    ensures ends { EndsInPrint (P.left lines) (P.finish lines)
        (sink_view (O.octets out.old) (O.faults out.old)) (sink_view (O.octets out.new) (O.faults out.new)) result.ending result.report }
    ensures count { O.faults out.old ≤ O.faults out.new }
{
    let mut lines = lines;
    match print_lines(alloc, &mut lines, out) {
        Ok(()) => match lines.finish() {
            Ok(finish) => print_closing(finish, out),
            Err(_) => Conclusion::without_report(Ending::NoMemory),
        },
        Err(OutStop::Fault) => Conclusion::without_report(Ending::WriteFault),
        Err(OutStop::NoMemory) => Conclusion::without_report(Ending::NoMemory),
    }
}

/// Prints lines piece by piece: each piece is written before the next one is made.
fn print_lines<P: Printer, O: Sink>(
    alloc: Global,
    lines: &mut P,
    out: &mut O,
) -> Result<(), OutStop>
    ensures whole { OnOk result (Grows (O.octets out.old) (O.octets out.new) (P.left lines.old)) }
    ensures none_left { OnOk result (P.left lines.new ≡ []) }
    ensures kept { OnOk result (P.finish lines.new ≡ P.finish lines.old) }
    ensures failed { IsErrOf result OutStop.Fault → GrowsByPrefix (O.octets out.old) (O.octets out.new) (P.left lines.old) }
    ensures no_memory { IsErrOf result OutStop.NoMemory
        → GrowsByPrefix (O.octets out.old) (O.octets out.new) (P.left lines.old ++ (P.finish lines.old).closing) }
    ensures quiet { OnOk result (O.faults out.new ≡ O.faults out.old) }
    ensures quiet_no_memory { IsErrOf result OutStop.NoMemory → O.faults out.new ≡ O.faults out.old }
    ensures cause { HasCause (O.faults out.old) (O.faults out.new) result }
{
    let mut piece = Octets::new(alloc);
    while print_piece(lines, &mut piece, out)? {}
    Ok(())
}

/// Prints the next piece. Answers false at the end.
fn print_piece<P: Printer, O: Sink>(
    lines: &mut P,
    piece: &mut Octets,
    out: &mut O,
) -> Result<bool, OutStop>
    requires { piece.old ≡ [] }
    ensures printed { OnOk result (PrintsSome (O.octets out.old) (O.octets out.new) (P.left lines.old) (P.left lines.new)) }
    ensures again { OnOk result (piece.new ≡ []) }
    ensures kept { OnOk result (P.finish lines.new ≡ P.finish lines.old) }
    ensures fewer { IfOk result (λ more. more ≡ true → length (P.left lines.new) < length (P.left lines.old)) }
    ensures end { IfOk result (λ more. more ≡ false → P.left lines.new ≡ []) }
    ensures failed { IsErrOf result OutStop.Fault → GrowsByPrefix (O.octets out.old) (O.octets out.new) (P.left lines.old) }
    ensures no_memory { IsErrOf result OutStop.NoMemory
        → GrowsByPrefix (O.octets out.old) (O.octets out.new) (P.left lines.old ++ (P.finish lines.old).closing) }
    ensures quiet { OnOk result (O.faults out.new ≡ O.faults out.old) }
    ensures quiet_no_memory { IsErrOf result OutStop.NoMemory → O.faults out.new ≡ O.faults out.old }
    ensures cause { HasCause (O.faults out.old) (O.faults out.new) result }
{
    lines.next(piece)?;
    if piece.is_empty() {
        return Ok(false);
    }
    write_whole(out, piece.as_slice())?;
    piece.truncate(0);
    Ok(true)
}

/// Prints the closing lines, where all lines before them were printed.
fn print_closing<O: Sink>(finish: Finish, out: &mut O) -> Conclusion
    ensures ends { EndsInPrint [] finish
        (sink_view (O.octets out.old) (O.faults out.old)) (sink_view (O.octets out.new) (O.faults out.new)) result.ending result.report }
    ensures count { O.faults out.old ≤ O.faults out.new }
{
    match write_whole(out, finish.closing.as_slice()) {
        Ok(()) => Conclusion::of(finish),
        Err(OutStop::Fault) => cut_short(finish),
        Err(OutStop::NoMemory) => Conclusion::without_report(Ending::NoMemory),
    }
}

/// How a command ends whose closing lines could not be printed whole: with status 4 in place of 0, and
/// else as the work came to its end.
fn cut_short(finish: Finish) -> Conclusion
    ensures { result ≡ cut_short_of finish }
{
    match finish.end {
        End::Done => Conclusion {
            ending: Ending::WriteFault,
            report: if finish.keeps_report {
                finish.report
            } else {
                None
            },
        },
        end => Conclusion {
            ending: Ending::Ended(end),
            report: finish.report,
        },
    }
}
