//! The two ends of a connection.

/// Which end of a connection this one is.
#[derive(Clone, Copy, Debug, PartialEq, Eq)]
pub enum Role {
    /// It reads what a client writes, the connection preface first (RFC 9113, section 3.4).
    Server,
    /// It reads what a server writes.
    Client,
}
