//! How much a stimulus may ask for.

/// The longest stimulus, in octets. It bounds the memory that its text takes, before a line of it is
/// read.
pub const LONGEST_STIMULUS: usize = 4_194_304;

const _: () = prove!(LONGEST_STIMULUS == 4194304);

/// How many lines of a stimulus may count. It bounds the steps that are held.
pub const STIMULUS_LINES: u32 = 65_536;

const _: () = prove!(STIMULUS_LINES == 65536);

/// How many cycles all lines of a stimulus may run. It bounds the time of a simulation: a short text
/// could ask for years of it.
pub const STIMULUS_CYCLES: u64 = 1_000_000;

const _: () = prove!(STIMULUS_CYCLES == 1000000);

/// The largest number that is a count of cycles, so that a step keeps it in 32 bits. What runs more
/// than all lines may is refused as that and not as a bad number.
pub const LARGEST_RUN: u64 = 4_294_967_295;

const _: () = prove!(LARGEST_RUN == 4294967295);
