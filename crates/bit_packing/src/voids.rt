//! Whether a word is a packing: as wide as the type, each bit of a void 0.
ghost use Rattle.std.specs.Prelude.{◌≡◌, ◌≤◌, ◌+◌, ◌-◌, ◌*◌, ◌↔◌, IsTrue, All, map, drop, length};
ghost use Rattle.std.specs.List.{sum_by};
ghost use Rattle.channel_types.specs.Types.{IsGoodType, width_of, field_width};
ghost use Rattle.bit_packing.specs.Packing.{IsPacking};
ghost use Rattle.bit_packing.specs.Voids.{has_marked_one, voids_of, field_voids, stacked, repeated};

use esi_base::Word;
use esi_base::word::WORD_BITS;
use esi_types::{EsiType, Field};

/// Whether the word is the packing of a value of the type. It takes no memory.
pub fn is_packing(word: &Word, ty: &EsiType) -> bool
    requires { IsGoodType ty.now }
    ensures { IsTrue result ↔ IsPacking word.now ty.now }
{
    word.width() == ty.width() && !sets_void(word, ty, 0)
}

/// Whether a void's bit is 1, among the bits of a value of the type that stand from an index of the word
/// on.
#[cycle(voids)]
pub(crate) fn sets_void(word: &Word, ty: &EsiType, at: u32) -> bool
    requires good { IsGoodType ty.now }
    requires within { at + width_of ty.now ≤ length word.now }
    requires narrow { length word.now ≤ WORD_BITS }
    ensures { result ≡ has_marked_one (voids_of ty.now) (drop at word.now) }
{
    match ty {
        EsiType::Bits { class: _, width: _ } => false,
        EsiType::Void => word.bit(at),
        EsiType::Struct(fields) => field_sets_void(word, fields.as_slice(), at + ty.width()),
        EsiType::Array { item, count } => item_sets_void(word, item.get(), *count, at),
    }
}

/// The same for the fields of a struct, whose bits end below an index of the word.
#[cycle(voids)]
fn field_sets_void(word: &Word, fields: &[Field], end: u32) -> bool
    requires good { All (λ f. IsGoodType f.ty) fields.now }
    requires room { sum_by field_width fields.now ≤ end }
    requires within { end ≤ length word.now }
    requires narrow { length word.now ≤ WORD_BITS }
    ensures { result ≡ has_marked_one (stacked (map field_voids fields.now)) (drop (end - sum_by field_width fields.now) word.now) }
{
    let mut at = end;
    for field in fields {
        at -= field.ty.width();
        if sets_void(word, &field.ty, at) {
            return true;
        }
    }
    false
}

/// The same for the items of an array, whose bits begin at an index of the word.
#[cycle(voids)]
fn item_sets_void(word: &Word, item: &EsiType, count: u32, start: u32) -> bool
    requires good { IsGoodType item.now }
    requires within { start + count * width_of item.now ≤ length word.now }
    requires narrow { length word.now ≤ WORD_BITS }
    ensures { result ≡ has_marked_one (repeated count (voids_of item.now)) (drop start word.now) }
{
    let width = item.width();
    let mut at = start;
    for _ in 0..count {
        if sets_void(word, item, at) {
            return true;
        }
        at += width;
    }
    false
}
