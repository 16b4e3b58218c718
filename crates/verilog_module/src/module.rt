//! The parts of a module beside right sides.

use channel_types::EsiType;
use esi_base::Octets;

/// A net as it is declared: `wire [width - 1:0] nK;` or `reg [width - 1:0] nK;`.
#[derive(Clone, Copy, Debug, PartialEq, Eq)]
pub struct Declared {
    /// Its width in bits.
    pub width: u32,
    /// Whether it is a register, and not a wire.
    pub is_register: bool,
}

/// An endpoint as the comment line on it has it.
#[derive(Debug, Drop)]
pub struct EndpointLine {
    /// The name by which clients ask for it.
    pub name: Octets,
    /// What goes through it.
    pub ty: EsiType,
}

/// The nets that drive the output ports of a to-client endpoint.
#[derive(Clone, Copy, Debug, PartialEq, Eq)]
pub struct Offer {
    /// The net of its valid port.
    pub valid: u32,
    /// The net of its word port.
    pub word: u32,
}
