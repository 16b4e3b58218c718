//! How much a log may hold.

/// The longest log, in octets. It bounds the memory that its text takes, before a line of it is read.
pub const LONGEST_LOG: usize = 67_108_864;

const _: () = prove!(LONGEST_LOG == 67108864);

/// How many lines of a log may count. It bounds the steps that are held.
pub const LOG_LINES: usize = 1_048_576;

const _: () = prove!(LOG_LINES == 1048576);

/// How many octets a `bytes` line brings at most, as many as an event of links.
pub const LOG_OCTETS: usize = 16_384;

const _: () = prove!(LOG_OCTETS == 16384);

/// The largest number of a connection.
pub const LARGEST_CONN: u64 = 4_294_967_295;

const _: () = prove!(LARGEST_CONN == 4294967295);

/// The largest room of a connection.
pub const LARGEST_ROOM: u64 = 18_446_744_073_709_551_615;

const _: () = prove!(LARGEST_ROOM == 18446744073709551615);
