//! How many channels a hub has.

/// How many channels each side has at most. It bounds the rings that a design makes a session hold.
pub const SIDE_CHANNELS: u32 = 32;

const _: () = prove!(SIDE_CHANNELS == 32);
