//! A header field and a list of them (RFC 7541, section 1.3).
ghost use Rattle.std.specs.Prelude.{◌≡◌, ◌<◌, ◌^◌, nat_le, IfOk};
ghost use Rattle.hpack.specs.Tables.{size_of};

use crate::limits::ENTRY_OVERHEAD;
use esi_base::{List, NoMemory, Octets};
use std::alloc::Global;

/// A header field: its name and its value, both any octets.
#[derive(Debug, Drop)]
pub struct Header {
    /// The name, as `:path` or `content-type`.
    pub name: Octets,
    /// The value.
    pub value: Octets,
}

/// The header fields of a block, in order.
pub type Headers = List<Header>;

impl Header {
    /// A copy of the field.
    pub(crate) fn copied(&self, alloc: Global) -> Result<Header, NoMemory>
        ensures { IfOk result (λ header. header ≡ self.now) }
    {
        Ok(Header {
            name: List::from_slice(alloc, self.name.as_slice())?,
            value: List::from_slice(alloc, self.value.as_slice())?,
        })
    }

    /// Its size as an entry of a table (RFC 7541, section 4.1).
    pub(crate) fn size(&self) -> usize
        requires { size_of self.now < 2 ^ 64 }
        ensures { result ≡ size_of self.now }
    {
        self.name.len() + self.value.len() + ENTRY_OVERHEAD
    }

    /// Whether its size is at most `room`.
    pub(crate) fn fits(&self, room: usize) -> bool
        ensures { result ≡ nat_le (size_of self.now) room }
    {
        let name = self.name.len();
        let value = self.value.len();
        ENTRY_OVERHEAD <= room
            && name <= room - ENTRY_OVERHEAD
            && value <= room - ENTRY_OVERHEAD - name
    }
}
