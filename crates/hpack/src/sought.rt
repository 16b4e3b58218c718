//! The entry of the two tables by which a field is written.
ghost use Rattle.std.specs.Prelude.{◌≡◌, ◌<◌, ◌*◌, ◌+◌};
ghost use Rattle.hpack.specs.StaticTable.{static_table, field};
ghost use Rattle.hpack.specs.Encoding.{first_index, entries_of};
ghost use Rattle.hpack.specs.Sought.{passes};

use crate::dynamic_table::DynamicTable;
use crate::header::Header;
use crate::static_table::{piece, span_of};

/// What of a header an entry has to have.
#[derive(Clone, Copy, Debug, PartialEq, Eq)]
pub(crate) enum Sought {
    /// Its name and its value.
    Field,
    /// Its name.
    Name,
}

impl Sought {
    /// Whether an entry of this name and this value has it.
    pub(crate) fn is_in(self, header: &Header, name: &[u8], value: &[u8]) -> bool
        ensures { result ≡ passes self header.now (field name.now value.now) }
    {
        match self {
            Sought::Field => name == header.name.as_slice() && value == header.value.as_slice(),
            Sought::Name => name == header.name.as_slice(),
        }
    }
}

/// The least index of an entry that has it, of the static table.
fn static_index(sought: Sought, header: &Header) -> Option<u32>
    ensures { result ≡ first_index (passes sought header.now) 1 static_table }
{
    let (from, to) = span_of(header.name.as_slice());
    for at in from..to {
        if sought.is_in(header, piece(2 * at), piece(2 * at + 1)) {
            return Some(at as u32 + 1);
        }
    }
    None
}

/// The least index of an entry that has it, of both tables.
pub(crate) fn index_of(table: &DynamicTable, sought: Sought, header: &Header) -> Option<u32>
    ensures { result ≡ first_index (passes sought header.now) 1 (entries_of table.now) }
{
    match static_index(sought, header) {
        Some(index) => Some(index),
        None => table.index_of(sought, header),
    }
}
