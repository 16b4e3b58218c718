//! A sink that fills up.
ghost use Rattle.std.specs.Prelude.{Some};

use esi_base::Octets;
use esi_links::{OutStop, Sink};
use std::alloc::Global;

/// A sink that takes five octets at a time, up to a room, and then fails.
#[derive(Drop)]
pub struct NarrowSink {
    taken: Octets,
    room: usize,
    faults: u64,
}

impl NarrowSink {
    /// A sink with so much room.
    pub fn new(alloc: Global, room: usize) -> NarrowSink {
        NarrowSink {
            taken: Octets::new(alloc),
            room,
            faults: 0,
        }
    }

    /// What was taken.
    pub fn written(&self) -> &[u8] {
        self.taken.as_slice()
    }
}

impl Sink for NarrowSink {
    ghost octets = { λ sink. Some sink.taken };

    ghost faults = { λ sink. sink.faults };

    fn write(&mut self, piece: &[u8]) -> Result<usize, OutStop> {
        let count = self.room.min(5).min(piece.len());
        if count == 0 && !piece.is_empty() {
            self.faults = self.faults.saturating_add(1);
            return Err(OutStop::Fault);
        }
        self.taken.push_all(&piece[..count])?;
        self.room -= count;
        Ok(count)
    }
}
