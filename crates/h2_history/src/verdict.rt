//! What a frame comes to.

/// What a frame comes to at the place where it stands, and a header block that is whole.
#[derive(Clone, Copy, Debug, PartialEq, Eq)]
pub enum Verdict {
    /// It breaks a rule of the connection, which ends with GOAWAY (RFC 9113, section 5.4.1).
    ConnectionError {
        /// The error code.
        code: u32,
    },
    /// It breaks a rule of its stream, which ends with RST_STREAM (section 5.4.2).
    StreamError {
        /// The stream.
        stream: u32,
        /// The error code.
        code: u32,
    },
    /// Nothing comes of it: its stream is closed; or it is a part of a header block that is not whole,
    /// or an informational header list.
    Ignored,
    /// It does what it says.
    Accepted,
}
