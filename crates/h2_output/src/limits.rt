//! The limit of the output.

/// How many octets are unsent at most. It bounds the memory that a peer can take that lets this end
/// write, and reads nothing.
pub const MOST_UNSENT: usize = 262_144;

const _: () = prove!(MOST_UNSENT == 262144);
