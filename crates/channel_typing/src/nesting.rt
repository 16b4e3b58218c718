//! How many types stand inside one another.
ghost use Rattle.std.specs.Prelude.{◌≡◌, ◌+◌, min, max};
ghost use Rattle.channel_types.specs.Types.{nesting_of};

use crate::limits::TOO_DEEP;
use channel_types::EsiType;

/// How many types stand inside one another, the type itself counted, where `TOO_DEEP` stands for all
/// numbers above the most. It takes no memory, and calls itself as deep as the type.
pub(crate) fn capped_nesting(ty: &EsiType) -> u32
    ensures { result ≡ min TOO_DEEP (nesting_of ty.now) }
{
    match ty {
        EsiType::Bits { class: _, width: _ } => 1,
        EsiType::Void => 1,
        EsiType::Struct(fields) => {
            let mut deepest = 0;
            for field in fields.as_slice() {
                deepest = deeper(deepest, capped_nesting(&field.ty));
            }
            one_deeper(deepest)
        }
        EsiType::Array { item, count: _ } => one_deeper(capped_nesting(item.get())),
    }
}

/// The greater of two.
fn deeper(one: u32, other: u32) -> u32
    ensures { result ≡ max one other }
{
    if one < other { other } else { one }
}

/// One more, but `TOO_DEEP` at most.
fn one_deeper(nesting: u32) -> u32
    ensures { result ≡ min TOO_DEEP (nesting + 1) }
{
    if nesting < TOO_DEEP {
        nesting + 1
    } else {
        TOO_DEEP
    }
}
