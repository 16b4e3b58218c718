//! Settings (RFC 9113, section 6.5).

/// A setting.
#[derive(Clone, Copy, Debug, PartialEq, Eq)]
pub struct Setting {
    /// The setting's identifier.
    pub id: u16,
    /// Its value.
    pub value: u32,
}

/// How many octets the table of the header blocks that the sender reads may have.
pub const HEADER_TABLE_SIZE: u16 = 0x1;

/// Whether the sender allows PUSH_PROMISE.
pub const ENABLE_PUSH: u16 = 0x2;

/// How many streams the sender lets its peer have open.
pub const MAX_CONCURRENT_STREAMS: u16 = 0x3;

/// With which window the sender begins each stream on which it reads.
pub const INITIAL_WINDOW_SIZE: u16 = 0x4;

/// How many octets of payload the sender reads in one frame.
pub const MAX_FRAME_SIZE: u16 = 0x5;

/// How large the header lists are that the sender wants to read.
pub const MAX_HEADER_LIST_SIZE: u16 = 0x6;

const _: () = prove!(HEADER_TABLE_SIZE == 1 && ENABLE_PUSH == 2 && MAX_CONCURRENT_STREAMS == 3);

const _: () = prove!(INITIAL_WINDOW_SIZE == 4 && MAX_FRAME_SIZE == 5 && MAX_HEADER_LIST_SIZE == 6);
