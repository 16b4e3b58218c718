//! Header blocks that are not whole (RFC 9113, section 4.3).

use esi_base::Octets;

/// A header block of which frames were read, and not the last.
#[derive(Debug, Drop)]
pub struct HeaderBlock {
    /// The stream.
    pub stream: u32,
    /// Whether it is the last thing of the peer on the stream (END_STREAM).
    pub end: bool,
    /// Whether something comes of its header list. Where nothing does, as on a closed stream, the block
    /// is decoded all the same, since it changes the table.
    pub wanted: bool,
    /// Its octets so far.
    pub octets: Octets,
    /// How many CONTINUATION frames it has had.
    pub continued: u32,
}
