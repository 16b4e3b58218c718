//! A request of a design.
use esi_base::Octets;

/// A request of a design: under which id its endpoints stand, and what it asks for.
#[derive(Debug, Drop)]
pub struct Asked {
    /// The application id, with those of the instances around it and its index: `add[0]`.
    pub id: Octets,
    /// The service and its port: `Host.add`.
    pub service: Octets,
    /// The bundle of that port.
    pub bundle: Octets,
}
