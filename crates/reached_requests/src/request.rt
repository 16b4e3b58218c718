//! A request that is reached from the top.
use design_tree::Name;
use esi_base::Octets;

/// A request that is reached from the top of a design.
#[derive(Drop)]
pub struct ReachedRequest<'a> {
    /// The application ids from the top down to it, with a dot between each two: `outer.add[0]`.
    pub id: Octets,
    /// The service that it asks for.
    pub service: &'a Name,
    /// The port of that service.
    pub port: &'a Name,
    /// The offset of the first octet of its statement.
    pub at: usize,
}
