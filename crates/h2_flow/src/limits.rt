//! The numbers that bound windows and streams.

/// The greatest window, in octets: what 31 bits hold. A window that would pass it is a flow-control
/// error (RFC 9113, section 6.9.1).
pub const GREATEST_WINDOW: u32 = 2_147_483_647;

/// What every window is at first, in octets (RFC 9113, section 6.9.2), until a setting or an increment
/// changes it.
pub const FIRST_WINDOW: u32 = 65_535;

/// How many streams of one connection are open at most. It bounds the memory that a peer can take by
/// opening streams, which is had once, when the ledger is made.
pub const OPEN_STREAMS: usize = 64;

const _: () = prove!(GREATEST_WINDOW == 2147483647);

const _: () = prove!(FIRST_WINDOW == 65535);

const _: () = prove!(OPEN_STREAMS == 64);
