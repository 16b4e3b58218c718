//! How much rings and a session hold.

/// How many values a ring holds at most. It bounds what stands between an endpoint and the circuit, so
/// that a side that is not read holds up the other one and takes no more memory.
pub const RING_VALUES: usize = 16;

const _: () = prove!(RING_VALUES == 16);

/// How many values a session takes at most. It bounds the journal, which keeps each of them.
pub const SESSION_VALUES: usize = 1_048_576;

const _: () = prove!(SESSION_VALUES == 1048576);
