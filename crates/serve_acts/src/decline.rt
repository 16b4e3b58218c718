//! Replies that are a header list alone.

/// What answers a call of which nothing else comes.
#[derive(Clone, Copy, Debug, PartialEq, Eq)]
pub enum Decline {
    /// A status of HTTP.
    Http(u16),
    /// A status of gRPC other than OK.
    Status(u8),
}
