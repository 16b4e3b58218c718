//! The limits of a design.

/// The fewest stages of a pipe or of a buffer.
pub const MIN_STAGES: u128 = 1;

/// The most stages of a pipe or of a buffer.
pub const MAX_STAGES: u128 = 64;

/// The least depth of a fifo, in values.
pub const MIN_DEPTH: u128 = 2;

/// The greatest depth of a fifo, in values.
pub const MAX_DEPTH: u128 = 64;

/// The fewest channels that a fork makes.
pub const MIN_BRANCHES: usize = 2;

/// The most channels that a fork makes.
pub const MAX_BRANCHES: usize = 8;

/// The greatest size of a top. It counts each statement of a body that makes channels, a buffer by its
/// stages, each request and each instance, and besides what the instance's module has.
pub const LARGEST_DESIGN: usize = 1024;

/// The most endpoints of a top on one side.
pub const MAX_ENDPOINTS: usize = 32;

const _: () = prove!(MIN_STAGES == 1);

const _: () = prove!(MAX_STAGES == 64);

const _: () = prove!(MIN_DEPTH == 2);

const _: () = prove!(MAX_DEPTH == 64);

const _: () = prove!(MIN_BRANCHES == 2);

const _: () = prove!(MAX_BRANCHES == 8);

const _: () = prove!(LARGEST_DESIGN == 1024);

const _: () = prove!(MAX_ENDPOINTS == 32);
