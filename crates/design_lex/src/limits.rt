//! The limits of tokens.

/// The most octets of a word. It bounds what a name takes to store and to compare.
pub const LONGEST_WORD: usize = 64;

const _: () = prove!(LONGEST_WORD == 64);

/// The greatest width of a type, in bits. It bounds what a value takes, and so what a short text can
/// make a session store.
pub const WIDEST_TYPE: u32 = 1_024;

const _: () = prove!(WIDEST_TYPE == 1024);

/// The width that a type word has where its own is above the greatest one, however long its digits are.
pub const TOO_WIDE: u32 = WIDEST_TYPE + 1;

const _: () = prove!(TOO_WIDE == 1025);
