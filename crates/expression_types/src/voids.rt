//! Whether a type has a part that is `void`.
ghost use Rattle.std.specs.Prelude.{◌≡◌};
ghost use Rattle.expression_types.specs.Typing.{has_void};

use channel_types::EsiType;

/// Whether a type is `void` or has a part that is. It takes no memory.
pub(crate) fn has_void(ty: &EsiType) -> bool
    ensures { result ≡ has_void ty.now }
{
    match ty {
        EsiType::Bits { class: _, width: _ } => false,
        EsiType::Void => true,
        EsiType::Struct(fields) => {
            for field in fields.as_slice() {
                if has_void(&field.ty) {
                    return true;
                }
            }
            false
        }
        EsiType::Array { item, count: _ } => has_void(item.get()),
    }
}
