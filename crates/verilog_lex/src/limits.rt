//! The limits of texts and of tokens.

/// The most octets of a Verilog text. It bounds the time that a text takes to be read.
pub const LONGEST_VERILOG: usize = 16_777_216;

const _: () = prove!(LONGEST_VERILOG == 16_777_216);

/// The greatest number that a token has; it stands for every greater one too.
pub const GREATEST_NUMBER: u32 = 4_294_967_295;

const _: () = prove!(GREATEST_NUMBER == 4_294_967_295);

/// How many numbers a net or an endpoint may have: 2^32.
pub const INDICES: u64 = 4_294_967_296;

const _: () = prove!(INDICES == 4_294_967_296);

/// A number above every width.
pub const TOO_WIDE: u64 = 1_025;

const _: () = prove!(TOO_WIDE == 1_025);
