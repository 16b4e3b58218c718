//! The states of a stream.

/// An open stream. A stream that is idle or closed has none: what is said of it here is what RFC 9113,
/// section 5.1, calls open, half-closed (local) and half-closed (remote). No stream is ever reserved,
/// since no end pushes.
///
/// ```text
///                 HEADERS
///        idle ---------------> open            peer_ended  here_ended
///                               |              false       false
///          peer's END_STREAM   / \   this end's END_STREAM
///                             v   v
///       half-closed (remote)         half-closed (local)
///       true        false            false       true
///                             \   /
///        this end's END_STREAM \ /  peer's END_STREAM
///                               v
///                            closed            <--- RST_STREAM of either end, from any of the three
/// ```
#[derive(Clone, Copy, Debug, PartialEq, Eq)]
pub struct OpenStream {
    /// The stream's identifier.
    pub stream: u32,
    /// Whether the peer has ended it: END_STREAM was read.
    pub peer_ended: bool,
    /// Whether this end has ended it: END_STREAM was put.
    pub here_ended: bool,
    /// Whether the peer's first header list was accepted: the next one is trailers.
    pub begun: bool,
}
