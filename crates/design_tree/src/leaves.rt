//! The leaves of the tree, on which expressions and statements stand: names, numbers, application ids and
//! references.
use esi_base::Octets;

/// A name of the text.
#[derive(Debug, Drop)]
pub struct Name {
    /// Its octets, 1 to 64.
    pub octets: Octets,
    /// The offset of its first octet.
    pub at: usize,
}

/// A number of the text.
#[derive(Clone, Copy, Debug, PartialEq, Eq)]
pub struct Number {
    /// The number.
    pub value: u128,
    /// The offset of its first octet.
    pub at: usize,
}

/// The application id of a request or an instance: a name and, where it has one, an index in brackets.
#[derive(Debug, Drop)]
pub struct ApplicationId {
    /// Its name.
    pub name: Name,
    /// The index in brackets.
    pub index: Option<u32>,
}

/// What a statement refers to.
#[derive(Debug, Drop)]
pub enum Reference {
    /// A channel or a port of the module.
    Channel(Name),
    /// A member of a request, or a port of an instance: an application id, a dot and a name.
    Member {
        /// The application id of the request or the instance.
        id: ApplicationId,
        /// The name of the member or the port.
        name: Name,
    },
}
