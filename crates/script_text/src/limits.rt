//! How much a script may ask for.

/// The longest script, in octets. It bounds the memory that its text takes, before a line of it is
/// read.
pub const LONGEST_SCRIPT: usize = 4_194_304;

const _: () = prove!(LONGEST_SCRIPT == 4194304);

/// How many lines of a script may count. It bounds the steps that are held.
pub const SCRIPT_LINES: usize = 65_536;

const _: () = prove!(SCRIPT_LINES == 65536);

/// How many `attach` lines there may be, as many as a design has endpoints on one side.
pub const SCRIPT_ATTACHES: usize = 32;

const _: () = prove!(SCRIPT_ATTACHES == 32);

/// The longest name, in octets.
pub const LONGEST_NAME: usize = 255;

const _: () = prove!(LONGEST_NAME == 255);

/// The largest status of a call, as gRPC has them.
pub const LARGEST_STATUS: u64 = 16;

const _: () = prove!(LARGEST_STATUS == 16);

/// The largest number of values that a line waits for.
pub const LARGEST_COUNT: u64 = 4_294_967_295;

const _: () = prove!(LARGEST_COUNT == 4294967295);
