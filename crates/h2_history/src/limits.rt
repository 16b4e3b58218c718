//! The limits of a connection, beside those of frames, windows, header lists and the output.

/// How many octets a header block has at most, over all its frames.
pub const LONGEST_BLOCK: usize = 32_768;

/// How many CONTINUATION frames a header block has at most: it bounds what frames without octets cost.
pub const MOST_CONTINUATIONS: u32 = 32;

/// Up to how many unsent octets DATA is written. What is above it is for frames that answer others.
pub const ROOM_FOR_DATA: usize = 32_768;

/// How many octets of DATA a server lets a client send at first, on all streams together.
pub const SERVER_WINDOW: u32 = 1_048_576;

/// How many octets a GOAWAY frame without debug data has: so many are kept for the last one.
pub const GOAWAY_OCTETS: usize = 17;

/// How many streams a peer allows that has not said it (RFC 9113, section 6.5.2: no limit).
pub const UNLIMITED_STREAMS: u32 = 4_294_967_295;

const _: () = prove!(LONGEST_BLOCK == 32768 && MOST_CONTINUATIONS == 32 && ROOM_FOR_DATA == 32768);

const _: () = prove!(SERVER_WINDOW == 1048576 && GOAWAY_OCTETS == 17);

const _: () = prove!(UNLIMITED_STREAMS == 4294967295);
