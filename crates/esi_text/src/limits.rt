//! How long a design may be.

/// The longest design text, in octets. It bounds the memory and the time that a text takes, before a
/// token of it is read, and keeps lines and columns within 32 bits.
pub const LONGEST_DESIGN: usize = 1_048_576;

const _: () = prove!(LONGEST_DESIGN == 1048576);
