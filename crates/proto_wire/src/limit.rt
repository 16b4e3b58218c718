//! The limits of fields, and the wire types of keys.

/// How many octets a varint has at most: as many groups of seven bits as hold 64 bits. So no peer
/// makes a reader go over groups without end that add nothing to the number.
pub const VARINT_OCTETS: usize = 10;

/// The greatest number of a field, of 29 bits (Protocol Buffers, "Assigning Field Numbers").
pub const GREATEST_FIELD_NUMBER: u32 = 536_870_911;

/// The wire type of a varint.
pub const VARINT_TYPE: u64 = 0;

/// The wire type of eight octets.
pub const FIXED64_TYPE: u64 = 1;

/// The wire type of a span: a varint, and as many octets as it says.
pub const SPAN_TYPE: u64 = 2;

/// The wire type of four octets.
pub const FIXED32_TYPE: u64 = 5;

const _: () = prove!(VARINT_OCTETS == 10);

const _: () = prove!(GREATEST_FIELD_NUMBER == 536870911);

const _: () = prove!(VARINT_TYPE == 0 && FIXED64_TYPE == 1 && SPAN_TYPE == 2 && FIXED32_TYPE == 5);
