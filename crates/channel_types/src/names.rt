//! Whether two fields have the same name.
ghost use Rattle.std.specs.Prelude.{◌≡◌, IfOk, map};
ghost use Rattle.channel_types.specs.Types.{has_repeat, name_of};

use crate::esi_type::Field;
use esi_base::NoMemory;
use std::alloc::Global;
use std::collections::BTreeSet;

/// Whether two of the fields have the same name. The fields need not be good ones. It takes time in
/// n log n.
pub fn names_repeat(alloc: Global, fields: &[Field]) -> Result<bool, NoMemory>
    ensures { IfOk result (λ repeats. repeats ≡ has_repeat (map name_of fields.now)) }
{
    let mut names = BTreeSet::new(alloc);
    for field in fields {
        let is_new = names.insert(field.name.as_slice())?;
        if !is_new {
            return Ok(true);
        }
    }
    Ok(false)
}
