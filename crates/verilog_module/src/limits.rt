//! What a comment line holds at most.

/// How many endpoints a module has on each side at most.
pub const MAX_ENDPOINTS: usize = 32;

/// How many octets the name of an endpoint has at most.
pub const LONGEST_NAME: usize = 255;

const _: () = prove!(MAX_ENDPOINTS == 32);

const _: () = prove!(LONGEST_NAME == 255);
