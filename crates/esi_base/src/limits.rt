//! The limit of a text that comes from outside.

/// How long a text or a file may be that is read, in octets: 64 MiB. So the memory that a text from
/// outside takes is bounded, and each offset, line and column in it fits 32 bits, however the text is
/// made.
pub const LONGEST_TEXT: usize = 67_108_864;

const _: () = prove!(LONGEST_TEXT == 67108864);
