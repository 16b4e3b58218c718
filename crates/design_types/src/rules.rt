//! Which rule of types a type breaks all of whose parts are good.
ghost use Rattle.std.specs.Prelude.{◌≡◌, IfOk};
ghost use Rattle.channel_types.specs.TypeRules as rules;
ghost use Rattle.channel_types.specs.Types.{has_repeat, level_names};
ghost use Rattle.channel_types.specs.declared.esi_type.EsiType.TheViews.{out-EsiType};

use channel_types::{EsiType, TypeRule, WIDEST_TYPE, capped_width, names_repeat};
use esi_base::NoMemory;
use std::alloc::Global;

/// The rule that a type breaks all of whose parts are good: that of widths first, then that of names;
/// None where the type is good. A struct whose names are compared has at most 1,024 fields, since it is
/// not too wide and each of its fields has a bit.
pub fn broken_rule(alloc: Global, ty: &EsiType) -> Result<Option<TypeRule>, NoMemory>
    ensures { IfOk result (λ rule. rule ≡ rules.broken_rule ty.now) }
{
    let width = capped_width(ty);
    if width == 0 || WIDEST_TYPE < width {
        return Ok(Some(TypeRule::WidthOutOfRange));
    }
    if has_repeated_field(alloc, ty)? {
        return Ok(Some(TypeRule::RepeatedField));
    }
    Ok(None)
}

/// Whether two fields of a struct have one name.
fn has_repeated_field(alloc: Global, ty: &EsiType) -> Result<bool, NoMemory>
    ensures { IfOk result (λ repeated. repeated ≡ has_repeat (level_names (out-EsiType ty.now))) }
{
    match ty {
        EsiType::Struct(fields) => names_repeat(alloc, fields.as_slice()),
        EsiType::Bits { .. } | EsiType::Void | EsiType::Array { .. } => Ok(false),
    }
}
