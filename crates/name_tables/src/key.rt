//! Names as they are written, as keys of tables.

/// A name as it is written: an application id and a dot may stand before it. Keys are ordered, so that they
/// serve in sets and maps.
#[derive(Clone, Copy, Debug, PartialEq, Eq, PartialOrd, Ord)]
pub struct Key<'a> {
    /// The name of the application id before the dot, where there is one.
    pub owner: Option<&'a [u8]>,
    /// The index in brackets, where there is one: of the id before the dot, or else of the name, which is an
    /// id itself.
    pub index: Option<u32>,
    /// The name.
    pub name: &'a [u8],
}

/// A name at its place.
#[derive(Clone, Copy, Debug, PartialEq, Eq)]
pub struct Mark<'a> {
    /// The name.
    pub key: Key<'a>,
    /// The offset at which it stands.
    pub at: usize,
}
