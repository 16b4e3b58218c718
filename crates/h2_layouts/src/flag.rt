//! The flags of frames, as masks of the flags octet (RFC 9113, section 6).

/// DATA, HEADERS: the sender writes nothing more on the stream.
pub const END_STREAM: u8 = 0x1;

/// SETTINGS, PING: the frame is an answer.
pub const ACK: u8 = 0x1;

/// HEADERS, CONTINUATION: the header block is whole with this frame.
pub const END_HEADERS: u8 = 0x4;

/// DATA, HEADERS: a Pad Length octet stands first, and as much padding last.
pub const PADDED: u8 = 0x8;

/// HEADERS: five octets of priority stand before the header block.
pub const PRIORITY: u8 = 0x20;

const _: () = prove!(END_STREAM == 1 && ACK == 1 && END_HEADERS == 4);

const _: () = prove!(PADDED == 8 && PRIORITY == 32);
