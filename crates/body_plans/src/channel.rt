//! A channel of a body, by name.
use name_tables::Key;

/// A channel of a body.
#[derive(Clone, Copy, Debug)]
pub(crate) struct ChannelKey<'a> {
    /// The name by which references are to it.
    pub name: Key<'a>,
    /// For an endpoint of an instance, the application id of the instance and the side.
    pub endpoint: Key<'a>,
}
