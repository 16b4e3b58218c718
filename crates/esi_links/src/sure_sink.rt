//! A sink in memory that never fails.
ghost use Rattle.std.specs.Prelude.{◌≡◌, ◌<◌, ◌≤◌, [], length, take, IfOk, OnOk, OnErr, IsErrOf};
ghost use Rattle.esi_links.specs.Counts.{HasCause};
ghost use Rattle.esi_links.specs.Growth.{Grows};

use crate::{OutStop, Sink};
use esi_base::Octets;
use std::alloc::Global;

/// A sink in memory that never fails, so its count of faults is 0. It takes every piece whole, and
/// tells what was written.
#[derive(Debug, Drop)]
pub struct SureSink {
    octets: Octets,
}

impl SureSink {
    ghost use Rattle.esi_links.specs.Held.{sure_octets};

    /// A sink to which nothing was written. It takes no memory.
    pub fn new(alloc: Global) -> SureSink
        ensures { sure_octets result ≡ [] }
    {
        SureSink {
            octets: Octets::new(alloc),
        }
    }

    /// What was written. It takes no memory.
    pub fn written(&self) -> &[u8]
        ensures { result.now ≡ sure_octets self.now }
    {
        self.octets.as_slice()
    }
}

impl Sink for SureSink {
    ghost use Rattle.esi_links.specs.Held.{sure_octets, sure_sink_told, no_sink_faults};

    ghost octets = { sure_sink_told };

    ghost faults = { no_sink_faults };

    /// It takes the whole piece, and fails only when it runs out of memory.
    fn write(&mut self, piece: &[u8]) -> Result<usize, OutStop>
        ensures bound { IfOk result (λ n. n ≤ length piece.now) }
        ensures some { IfOk result (λ n. 0 < length piece.now → 0 < n) }
        ensures taken { IfOk result (λ n. Grows (sure_sink_told self.old) (sure_sink_told self.new) (take n piece.now)) }
        ensures refused { OnErr result (sure_sink_told self.new ≡ sure_sink_told self.old) }
        ensures quiet { OnOk result (no_sink_faults self.new ≡ no_sink_faults self.old) }
        ensures cause { HasCause (no_sink_faults self.old) (no_sink_faults self.new) result }
        ensures no_memory { IsErrOf result OutStop.NoMemory → no_sink_faults self.new ≡ no_sink_faults self.old }
        ensures whole { IfOk result (λ n. n ≡ length piece.now) }
        ensures sure { IsErrOf result OutStop.Fault → ⊥ }
    {
        self.octets.push_all(piece)?;
        Ok(piece.len())
    }
}

/// The count of faults of such a sink is 0.
pub fn sure_sink_law(sink: &SureSink)
    ensures { ⟦<SureSink as Sink>⟧.faults sink.now ≡ 0 }
{}
