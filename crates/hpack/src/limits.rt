//! The limits of header blocks, and the prefixes of their integers.

/// The greatest size of a header list (RFC 9113, section 10.5.1: each field counts its octets and
/// `ENTRY_OVERHEAD`). It bounds the memory that one block can take, whatever its entries repeat.
pub const MAX_HEADER_LIST_SIZE: usize = 16_384;

const _: () = prove!(MAX_HEADER_LIST_SIZE == 16384);

/// The size of the dynamic table with which a connection begins, and the greatest that a size update
/// may set (RFC 9113, section 6.5.2: SETTINGS_HEADER_TABLE_SIZE). It bounds the memory that a peer
/// can fill with entries.
pub const MAX_TABLE_SIZE: usize = 4_096;

const _: () = prove!(MAX_TABLE_SIZE == 4096);

/// What each entry of a table counts beside its name and value (RFC 7541, section 4.1), so that empty
/// fields are not free.
pub(crate) const ENTRY_OVERHEAD: usize = 32;

const _: () = prove!(ENTRY_OVERHEAD == 32);

/// How many entries the static table has (RFC 7541, Appendix A).
pub(crate) const STATIC_ENTRIES: usize = 61;

const _: () = prove!(STATIC_ENTRIES == 61);

/// How many octets an integer has after its prefix, at most. It stops integers that never end, as by
/// zeros without end.
pub(crate) const INTEGER_OCTETS: usize = 5;

const _: () = prove!(INTEGER_OCTETS == 5);

/// The values of an integer are below this number, so that each fits 32 bits.
pub(crate) const INTEGER_VALUES: u64 = 1 << 32;

const _: () = prove!(INTEGER_VALUES == 4294967296);

/// The prefix of an indexed field's index has 7 bits (RFC 7541, section 6.1).
pub(crate) const INDEXED_BITS: u32 = 7;

const _: () = prove!(INDEXED_BITS == 7);

/// The prefix of the index of a literal that joins the table has 6 bits (RFC 7541, section 6.2.1).
pub(crate) const WITH_INDEXING_BITS: u32 = 6;

const _: () = prove!(WITH_INDEXING_BITS == 6);

/// The prefix of the index of a literal that does not join the table has 4 bits (RFC 7541, sections
/// 6.2.2 and 6.2.3).
pub(crate) const WITHOUT_INDEXING_BITS: u32 = 4;

const _: () = prove!(WITHOUT_INDEXING_BITS == 4);

/// The prefix of a size update has 5 bits (RFC 7541, section 6.3).
pub(crate) const SIZE_UPDATE_BITS: u32 = 5;

const _: () = prove!(SIZE_UPDATE_BITS == 5);

/// The prefix of a string's length has 7 bits (RFC 7541, section 5.2).
pub(crate) const STRING_BITS: u32 = 7;

const _: () = prove!(STRING_BITS == 7);

/// The bits with which representations begin, above the prefixes of their integers (RFC 7541, section 6).
pub(crate) const INDEXED_MARK: u8 = 0b1000_0000;

pub(crate) const WITH_INDEXING_MARK: u8 = 0b0100_0000;

pub(crate) const WITHOUT_INDEXING_MARK: u8 = 0;

const _: () = prove!(WITHOUT_INDEXING_MARK == 0);

pub(crate) const SIZE_UPDATE_MARK: u8 = 0b0010_0000;

/// The bit with which a string begins: whether it is Huffman coded (RFC 7541, section 5.2).
pub(crate) const CODED_MARK: u8 = 0b1000_0000;

pub(crate) const PLAIN_MARK: u8 = 0;
