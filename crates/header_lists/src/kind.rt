//! What header lists there are.

/// What a header list is (RFC 9113, section 8.1).
#[derive(Clone, Copy, Debug, PartialEq, Eq)]
pub enum ListKind {
    /// The first of a request.
    Request,
    /// The first of a reply, or an informational one before it.
    Reply,
    /// That behind the content of a request or of a reply.
    Trailers,
}
