//! What stands in the log of files.
use esi_base::Octets;

/// A read of a file that was done or that failed.
#[derive(Debug, Drop)]
pub struct Note {
    /// The name of the file.
    pub name: Octets,
    /// The octet from which octets were asked for, counted from 0.
    pub at: u64,
    /// How many octets were asked for at most.
    pub room: usize,
    /// How many octets were read, 0 at the end of the file; None where the read failed.
    pub count: Option<usize>,
}
