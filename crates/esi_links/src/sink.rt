//! What a program writes octets to.
ghost use Rattle.std.specs.Prelude.{◌≡◌, ℕ, ◌<◌, ◌≤◌, List, Option, length, take, IfOk, OnOk, OnErr, IsErrOf};
ghost use Rattle.esi_links.specs.Counts.{HasCause};
ghost use Rattle.esi_links.specs.Growth.{Grows};

use crate::OutStop;

/// A sink of octets. It tells, where it can, the octets written so far, and it counts the writes
/// that failed. The count never falls, and where it stands at its last value, 2^64 - 1, a failure
/// counts as a rise.
pub trait Sink {
    /// The octets written so far, if they are told.
    ghost octets: { Self → Option (List ℕ) };

    /// How many writes failed.
    ghost faults: { Self → ℕ };

    /// Offers octets. Ok(n): the first n of them were taken, and no others; n is above 0 where any
    /// were offered. Where it runs out of memory the sink stays as it was.
    fn write(&mut self, piece: &[u8]) -> Result<usize, OutStop>
        ensures bound { IfOk result (λ n. n ≤ length piece.now) }
        ensures some { IfOk result (λ n. 0 < length piece.now → 0 < n) }
        ensures taken { IfOk result (λ n. Grows (octets self.old) (octets self.new) (take n piece.now)) }
        ensures refused { OnErr result (octets self.new ≡ octets self.old) }
        ensures quiet { OnOk result (faults self.new ≡ faults self.old) }
        ensures cause { HasCause (faults self.old) (faults self.new) result }
        ensures no_memory { IsErrOf result OutStop.NoMemory → faults self.new ≡ faults self.old };
}
