//! The limits of frames.

/// How many octets the payload of a frame has at most. It is the least value that MAX_FRAME_SIZE may
/// have, and the one that holds where none was sent (RFC 9113, section 4.2): this end sends none, so
/// that no peer makes it keep more of a frame that is not whole.
pub const LONGEST_PAYLOAD: u32 = 16_384;

/// How large a window may be (section 6.9.1), and so INITIAL_WINDOW_SIZE.
pub const GREATEST_WINDOW: u32 = 2_147_483_647;

/// The greatest MAX_FRAME_SIZE (section 6.5.2): a length has 24 bits.
pub const GREATEST_FRAME_SIZE: u32 = 16_777_215;

/// Streams, and increments of windows, are below this number: they have 31 bits (section 4.1).
pub const STREAMS: u32 = 2_147_483_648;

const _: () = prove!(LONGEST_PAYLOAD == 16384 && GREATEST_WINDOW == 2147483647);

const _: () = prove!(GREATEST_FRAME_SIZE == 16777215 && STREAMS == 2147483648);
