//! A sink in memory, of which chosen writes fail.
ghost use Rattle.std.specs.Prelude.{◌≡◌, ◌<◌, ◌≤◌, [], length, take, true, ◌↔◌, Some, None, IfSome, IfOk, OnOk, OnErr, IsErrOf};
ghost use Rattle.std.proofs.Props.{props};
ghost use Rattle.esi_links.specs.Counts.{HasCause};
ghost use Rattle.esi_links.specs.Growth.{Grows};

use crate::{Calls, OutStop, Sink};
use esi_base::{List, Octets};
use std::alloc::Global;

/// A sink in memory. It counts its writes, and those with chosen numbers fail; every other takes
/// the whole piece, or as much of it as one write takes at most. It tells what was written.
#[derive(Debug, Drop)]
pub struct MemorySink {
    octets: Octets,
    calls: Calls,
    most: Option<usize>,
    ghost some: { IfSome most (λ n. 0 < n) } by { Prim.hlevel props },
}

impl MemorySink {
    ghost use Rattle.esi_links.specs.Held.{memory_octets, memory_calls, memory_most};
    ghost use Rattle.esi_links.specs.FailingCalls.{new_calls};

    /// A sink to which nothing was written, with the numbers, from 0, of the writes that are to
    /// fail. It takes no memory.
    pub fn new(alloc: Global, failing: List<u64>) -> MemorySink
        ensures empty { memory_octets result ≡ [] }
        ensures calls { memory_calls result ≡ new_calls failing }
        ensures most { memory_most result ≡ None }
    {
        MemorySink {
            octets: Octets::new(alloc),
            calls: Calls::new(failing),
            most: None,
        }
    }

    /// A sink to which nothing was written, one write to which takes at most `piece` octets, at least 1,
    /// with the numbers, from 0, of the writes that are to fail. It takes no memory.
    pub fn with_piece(alloc: Global, piece: usize, failing: List<u64>) -> MemorySink
        requires { 1 ≤ piece }
        ensures empty { memory_octets result ≡ [] }
        ensures calls { memory_calls result ≡ new_calls failing }
        ensures most { memory_most result ≡ Some piece }
    {
        MemorySink {
            octets: Octets::new(alloc),
            calls: Calls::new(failing),
            most: Some(piece),
        }
    }

    /// What was written. It takes no memory.
    pub fn written(&self) -> &[u8]
        ensures { result.now ≡ memory_octets self.now }
    {
        self.octets.as_slice()
    }
}

impl Sink for MemorySink {
    ghost use Rattle.esi_links.specs.Held.{memory_told, memory_calls, memory_faults, memory_most, at_most};
    ghost use Rattle.esi_links.specs.FailingCalls.{is_due, after_pass, after_fault};

    ghost octets = { memory_told };

    ghost faults = { memory_faults };

    /// It fails exactly where its number was chosen, and else takes the whole piece, or as much of it as
    /// one write takes at most.
    fn write(&mut self, piece: &[u8]) -> Result<usize, OutStop>
        ensures bound { IfOk result (λ n. n ≤ length piece.now) }
        ensures some { IfOk result (λ n. 0 < length piece.now → 0 < n) }
        ensures taken { IfOk result (λ n. Grows (memory_told self.old) (memory_told self.new) (take n piece.now)) }
        ensures refused { OnErr result (memory_told self.new ≡ memory_told self.old) }
        ensures quiet { OnOk result (memory_faults self.new ≡ memory_faults self.old) }
        ensures cause { HasCause (memory_faults self.old) (memory_faults self.new) result }
        ensures no_memory { IsErrOf result OutStop.NoMemory → memory_faults self.new ≡ memory_faults self.old }
        ensures count { IfOk result (λ n. n ≡ at_most (memory_most self.old) (length piece.now)) }
        ensures most { memory_most self.new ≡ memory_most self.old }
        ensures due { IsErrOf result OutStop.Fault ↔ (is_due (memory_calls self.old) ≡ true) }
        ensures passed { OnOk result (memory_calls self.new ≡ after_pass (memory_calls self.old)) }
        ensures failed { IsErrOf result OutStop.Fault → memory_calls self.new ≡ after_fault (memory_calls self.old) }
        ensures no_memory_calls { IsErrOf result OutStop.NoMemory → memory_calls self.new ≡ memory_calls self.old }
    {
        if self.calls.is_due() {
            self.calls.fail();
            return Err(OutStop::Fault);
        }
        let count = match self.most {
            Some(most) => most.min(piece.len()),
            None => piece.len(),
        };
        self.octets.push_all(&piece[..count])?;
        self.calls.pass();
        Ok(count)
    }
}
