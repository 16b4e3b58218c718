//! The limits of a session, beside those of its rings and of its connections.

/// How many connections are open at most.
pub const OPEN_CONNECTIONS: usize = 64;

/// How many cycles run in a turn.
pub const TURN_CYCLES: u64 = 64;

/// The status of gRPC that answers a call for which nothing is left (RESOURCE_EXHAUSTED).
pub const RESOURCE_EXHAUSTED: u8 = 8;

/// The status of gRPC that answers a call to attach a channel that is attached (ALREADY_EXISTS).
pub const ALREADY_EXISTS: u8 = 6;

const _: () = prove!(OPEN_CONNECTIONS == 64 && TURN_CYCLES == 64);

const _: () = prove!(RESOURCE_EXHAUSTED == 8 && ALREADY_EXISTS == 6);
