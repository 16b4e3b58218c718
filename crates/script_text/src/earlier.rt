//! What the lines before a line of a script said.
use esi_base::{List, Octets};

/// What the lines so far said: the names that were attached, and whether any value was sent.
#[derive(Debug, Drop)]
pub struct Earlier {
    /// The names of the `attach` lines, in order.
    pub names: List<Octets>,
    /// Whether there was a `send` line.
    pub sent: bool,
}
