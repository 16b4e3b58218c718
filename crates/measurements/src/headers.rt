//! Header blocks.
use esi_base::Octets;
use hpack::{Decoder, Encoder};
use std::alloc::Global;

/// Reads a header block so often, as blocks of one connection, and gives the count of its headers.
pub fn read(alloc: Global, rounds: u32, block: &[u8]) -> Option<usize> {
    let mut decoder = Decoder::new(alloc).ok()?;
    let mut made = 0;
    for _ in 0..rounds {
        made = decoder.block(block).ok()?.len();
    }
    Some(made)
}

/// Reads a header block, writes its headers so often, and gives the octets written.
pub fn write(alloc: Global, rounds: u32, block: &[u8]) -> Option<usize> {
    let mut decoder = Decoder::new(alloc).ok()?;
    let headers = decoder.block(block).ok()?;
    let mut encoder = Encoder::new(alloc).ok()?;
    let mut out = Octets::new(alloc);
    for _ in 0..rounds {
        out.truncate(0);
        encoder.block(&headers, &mut out).ok()?;
    }
    Some(out.len())
}
