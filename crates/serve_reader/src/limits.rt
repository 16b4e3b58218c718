//! The limit of a request.

/// How many octets of DATA a request has at most, without padding.
pub const LONGEST_REQUEST: usize = 16_384;

const _: () = prove!(LONGEST_REQUEST == 16384);
