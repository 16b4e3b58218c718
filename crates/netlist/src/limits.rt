//! How large a netlist and its nets are at most.

/// How many nets a netlist has at most. It bounds the memory and the time of a cycle of a design.
pub const MAX_NETS: usize = 16_384;

/// How wide a net is at most, in bits: as wide as a word.
pub const MAX_WIDTH: u32 = 1024;

/// How wide the operands of a sum, a difference or a comparison by size are at most, in bits: their
/// numbers fit one limb.
pub const MAX_NUMBER_WIDTH: u32 = 64;

/// How many words a FIFO holds at least, and at most.
pub const MIN_DEPTH: u32 = 2;

pub const MAX_DEPTH: u32 = 64;

/// How many branches a fork has at least, and at most.
pub const MIN_BRANCHES: u32 = 2;

pub const MAX_BRANCHES: u32 = 8;

const _: () = prove!(MAX_NETS == 16_384);

const _: () = prove!(MAX_WIDTH == 1024);

const _: () = prove!(MAX_NUMBER_WIDTH == 64);

const _: () = prove!(MIN_DEPTH == 2 && MAX_DEPTH == 64);

const _: () = prove!(MIN_BRANCHES == 2 && MAX_BRANCHES == 8);
