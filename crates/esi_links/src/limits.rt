//! The limits of what is read from the outside.

/// How many octets an event of a connection brings at most, as many as the payload of a frame has at
/// most: so one event takes no more memory than that, whatever the peer sends.
pub const LONGEST_BYTES: usize = 16_384;

/// How many octets one call reads at most: they stand on the stack until they are copied.
pub const LONGEST_PIECE: usize = 4_096;

const _: () = prove!(LONGEST_BYTES == 16384);

const _: () = prove!(LONGEST_PIECE == 4096);
