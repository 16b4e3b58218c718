//! How many variables an expression has.

/// The most variables that an expression has: those of a scan, its state and its input.
pub const MAX_VARIABLES: usize = 2;

const _: () = prove!(MAX_VARIABLES == 2);
