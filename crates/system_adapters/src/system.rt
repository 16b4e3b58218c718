//! What the system answered, as an answer of the traits. Only here it is decided what a failure of
//! the system is, so each adapter is a line.
ghost use Rattle.std.specs.Prelude.{◌≡◌, ◌<◌, ◌≤◌, length, IfOk, OnOk, OnErr};
ghost use Rattle.std.specs.Io.KnownBytes.{Appends, ReadConsumes, WriteAppends};
ghost use Rattle.system_adapters.specs.Adapters.{Translates, after_answer};
ghost use Rattle.esi_links.specs.Counts.{HasCause};

use esi_links::OutStop;
use esi_links::limits::LONGEST_PIECE;
use std::io;

/// What the system gave is handed on. An error of the kind `OutOfMemory` is out of memory; every
/// other error is a fault, and is counted.
pub(crate) fn translate<T: Drop>(answer: io::Result<T>, faults: &mut u64) -> Result<T, OutStop>
    ensures answer { Translates answer result }
    ensures count { faults.new ≡ after_answer faults.old result }
    ensures cause { HasCause faults.old faults.new result }
{
    match answer {
        Ok(value) => Ok(value),
        Err(error) => match error.kind() {
            io::ErrorKind::OutOfMemory => Err(OutStop::NoMemory),
            _ => {
                *faults = faults.saturating_add(1);
                Err(OutStop::Fault)
            }
        },
    }
}

/// Reads one piece, at most `LONGEST_PIECE` octets at a time. A read that fails leaves the piece as it was.
pub(crate) fn read_from<F: io::Read>(file: &mut F, into: &mut [u8]) -> io::Result<usize>
    ensures bound { IfOk result (λ count. count ≤ length into.new) }
    ensures octets { ReadConsumes (F.remaining file.old) (F.remaining file.new) result into.new }
    ensures kept { OnErr result (into.new ≡ into.old) }
{
    let mut piece = [0u8; LONGEST_PIECE];
    let room = into.len().min(LONGEST_PIECE);
    let count = file.read(&mut piece[..room])?;
    into[..count].copy_from_slice(&piece[..count]);
    Ok(count)
}

/// Writes all octets.
pub(crate) fn write_to<F: io::Write>(file: &mut F, octets: &[u8]) -> io::Result<()>
    ensures { OnOk result (Appends (F.contents file.old) (F.contents file.new) octets.now) }
{
    file.write_all(octets)
}

/// Offers octets to a writer. One that takes none of them has failed, and this is counted.
pub(crate) fn offer_to<W: io::Write>(
    writer: &mut W,
    piece: &[u8],
    faults: &mut u64,
) -> Result<usize, OutStop>
    ensures octets { WriteAppends (W.contents writer.old) (W.contents writer.new) result piece.now }
    ensures bound { IfOk result (λ count. count ≤ length piece.now) }
    ensures some { IfOk result (λ count. 0 < length piece.now → 0 < count) }
    ensures count { faults.new ≡ after_answer faults.old result }
    ensures cause { HasCause faults.old faults.new result }
{
    let count = translate(writer.write(piece), faults)?;
    if count == 0 && !piece.is_empty() {
        *faults = faults.saturating_add(1);
        return Err(OutStop::Fault);
    }
    Ok(count)
}
