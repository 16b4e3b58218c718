//! Error codes (RFC 9113, section 7).

/// The stream, or the connection, ends without an error.
pub const NO_ERROR: u32 = 0x0;

/// A rule of the protocol is broken, and no code says it more closely.
pub const PROTOCOL_ERROR: u32 = 0x1;

/// The end that reports it has met a fault of its own.
pub const INTERNAL_ERROR: u32 = 0x2;

/// A rule of flow control is broken.
pub const FLOW_CONTROL_ERROR: u32 = 0x3;

/// A SETTINGS frame was not acknowledged in time.
pub const SETTINGS_TIMEOUT: u32 = 0x4;

/// A frame came on a stream that its sender had ended.
pub const STREAM_CLOSED: u32 = 0x5;

/// A frame has a length that it may not have.
pub const FRAME_SIZE_ERROR: u32 = 0x6;

/// A stream was refused before anything was done for it.
pub const REFUSED_STREAM: u32 = 0x7;

/// The stream is no longer needed.
pub const CANCEL: u32 = 0x8;

/// The tables of header blocks cannot be kept.
pub const COMPRESSION_ERROR: u32 = 0x9;

/// The connection that a CONNECT request asked for was reset or broke.
pub const CONNECT_ERROR: u32 = 0xa;

/// The peer asks for more than it may.
pub const ENHANCE_YOUR_CALM: u32 = 0xb;

/// The transport is not secure enough.
pub const INADEQUATE_SECURITY: u32 = 0xc;

/// HTTP/1.1 has to be used in place of HTTP/2.
pub const HTTP_1_1_REQUIRED: u32 = 0xd;

const _: () = prove!(PROTOCOL_ERROR == 1 && FLOW_CONTROL_ERROR == 3 && STREAM_CLOSED == 5);

const _: () = prove!(FRAME_SIZE_ERROR == 6 && REFUSED_STREAM == 7 && CANCEL == 8);

const _: () = prove!(COMPRESSION_ERROR == 9 && ENHANCE_YOUR_CALM == 11);
