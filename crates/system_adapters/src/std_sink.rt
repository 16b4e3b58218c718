//! A sink over a writer of the system.
ghost use Rattle.std.specs.Prelude.{◌≡◌, ◌<◌, ◌≤◌, None, length, IfOk, OnOk, IsErrOf};
ghost use Rattle.esi_links.specs.Counts.{HasCause};

use crate::system::offer_to;
use esi_links::{OutStop, Sink};
use std::io;

/// A sink over a writer, as the standard output. It tells nothing of what was written, and raises
/// its count at each failure; a writer that takes none of the octets offered has failed.
#[derive(Drop)]
pub struct StdSink<W> {
    writer: W,
    faults: u64,
}

impl<W: io::Write> StdSink<W> {
    ghost use Rattle.system_adapters.specs.Adapters.{std_faults};

    /// The sink over a writer. No write failed yet.
    pub fn new(writer: W) -> StdSink<W>
        ensures { std_faults result ≡ 0 }
    {
        StdSink { writer, faults: 0 }
    }
}

impl<W: io::Write> Sink for StdSink<W> {
    ghost use Rattle.std.specs.Io.KnownBytes.{WriteAppends};
    ghost use Rattle.system_adapters.specs.Adapters.{std_faults, std_writer, after_answer};

    ghost octets = { λ _. None };

    ghost faults = { λ sink. std_faults sink };

    /// The octets that the writer holds, where they are known, grow by those that it took.
    fn write(&mut self, piece: &[u8]) -> Result<usize, OutStop>
        ensures bound { IfOk result (λ n. n ≤ length piece.now) }
        ensures some { IfOk result (λ n. 0 < length piece.now → 0 < n) }
        ensures quiet { OnOk result (std_faults self.new ≡ std_faults self.old) }
        ensures cause { HasCause (std_faults self.old) (std_faults self.new) result }
        ensures no_memory { IsErrOf result OutStop.NoMemory → std_faults self.new ≡ std_faults self.old }
        ensures contents { WriteAppends (W.contents (std_writer self.old)) (W.contents (std_writer self.new)) result piece.now }
        ensures count { std_faults self.new ≡ after_answer (std_faults self.old) result }
    {
        offer_to(&mut self.writer, piece, &mut self.faults)
    }
}
