//! How much a schedule may ask for.

/// The longest schedule, in octets. It bounds the memory that its text takes, before a line of it is
/// read.
pub const LONGEST_SCHEDULE: usize = 4_194_304;

const _: () = prove!(LONGEST_SCHEDULE == 4194304);

/// How many lines of a schedule may count. It bounds the moves that are held.
pub const SCHEDULE_LINES: usize = 65_536;

const _: () = prove!(SCHEDULE_LINES == 65536);

/// How many rounds all lines of a schedule may ask for. It bounds the time of a session.
pub const SCHEDULE_ROUNDS: u64 = 4_000_000;

const _: () = prove!(SCHEDULE_ROUNDS == 4000000);

/// The largest number that is a count of octets to move.
pub const LARGEST_MOVE: u64 = 18_446_744_073_709_551_615;

const _: () = prove!(LARGEST_MOVE == 18446744073709551615);

/// The largest number that is a count of rounds. What asks for more than all lines may is refused as
/// that and not as a bad number.
pub const LARGEST_ROUND: u64 = 4_294_967_295;

const _: () = prove!(LARGEST_ROUND == 4294967295);
