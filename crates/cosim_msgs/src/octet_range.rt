//! Where octets stand among others.

/// Where octets stand, as those of an embedded message: between two offsets.
#[derive(Clone, Copy, Debug, PartialEq, Eq)]
pub(crate) struct OctetRange {
    /// The offset of the first octet.
    pub(crate) from: usize,
    /// The offset after the last one.
    pub(crate) to: usize,
}
