//! The limits of what clients are told of an endpoint.

/// How many octets the name of an endpoint has at most. It bounds what one call's message says of an endpoint.
pub const LONGEST_NAME: usize = 255;

/// How many octets the text of an endpoint's type has at most. It bounds the list of channels that a server answers.
pub const LONGEST_TYPE: usize = 4096;

const _: () = prove!(LONGEST_NAME == 255);

const _: () = prove!(LONGEST_TYPE == 4096);
