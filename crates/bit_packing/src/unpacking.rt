//! The value of a packing.
ghost use Rattle.std.specs.Prelude.{◌≡◌, ◌≤◌, ◌+◌, ◌-◌, ◌*◌, IfOk, All, map, take, drop, length, false};
ghost use Rattle.std.specs.List.{sum_by};
ghost use Rattle.channel_types.specs.Types.{IsGoodType, width_of, field_width};
ghost use Rattle.bit_packing.specs.Packing.{PacksTo, PackFields, PackItems, IsPacking, IsOnlyValue};
ghost use Rattle.bit_packing.specs.Voids.{has_marked_one, voids_of, field_voids, stacked, repeated};

use crate::value::Value;
use esi_base::word::WORD_BITS;
use esi_base::{NoMemory, Word};
use esi_types::{EsiType, Field};
use sqlite_items::Items;
use std::alloc::Global;

/// The value that fits the type and that the word packs, for a word that is a packing.
pub fn unpack(alloc: Global, word: &Word, ty: &EsiType) -> Result<Value, NoMemory>
    requires good { IsGoodType ty.now }
    requires packing { IsPacking word.now ty.now }
    ensures value { IfOk result (λ value. PacksTo ty.now value word.now) }

    // There is no other such value.
    ensures only { IfOk result (IsOnlyValue ty.now word.now) }
{
    value_at(alloc, word, ty, 0)
}

/// The value whose bits begin at an index of the word, in which no void bit is 1.
#[cycle(unpacking)]
fn value_at(alloc: Global, word: &Word, ty: &EsiType, at: u32) -> Result<Value, NoMemory>
    requires good { IsGoodType ty.now }
    requires within { at + width_of ty.now ≤ length word.now }
    requires narrow { length word.now ≤ WORD_BITS }
    requires clear { has_marked_one (voids_of ty.now) (drop at word.now) ≡ false }
    ensures { IfOk result (λ value. PacksTo ty.now value (take (width_of ty.now) (drop at word.now))) }
{
    match ty {
        EsiType::Bits { class: _, width } => Ok(Value::Number(word.slice(at + *width - 1, at))),
        EsiType::Void => Ok(Value::Void),
        EsiType::Struct(fields) => {
            let values = values_below(alloc, word, fields.as_slice(), at + ty.width())?;
            Ok(Value::Struct(values))
        }
        EsiType::Array { item, count } => {
            let values = values_from(alloc, word, item.get(), *count, at)?;
            Ok(Value::Array(values))
        }
    }
}

/// The values of a struct's fields, whose bits end below an index of the word.
#[cycle(unpacking)]
fn values_below(
    alloc: Global,
    word: &Word,
    fields: &[Field],
    end: u32,
) -> Result<Items<Value>, NoMemory>
    requires good { All (λ f. IsGoodType f.ty) fields.now }
    requires room { sum_by field_width fields.now ≤ end }
    requires within { end ≤ length word.now }
    requires narrow { length word.now ≤ WORD_BITS }
    requires clear { has_marked_one (stacked (map field_voids fields.now)) (drop (end - sum_by field_width fields.now) word.now) ≡ false }
    ensures { IfOk result (λ values. PackFields fields.now values (take (sum_by field_width fields.now) (drop (end - sum_by field_width fields.now) word.now))) }
{
    let mut values = Items::new(alloc);
    let mut at = end;
    for field in fields {
        at -= field.ty.width();
        values.push(value_at(alloc, word, &field.ty, at)?)?;
    }
    Ok(values)
}

/// The items of an array, whose bits begin at an index of the word.
#[cycle(unpacking)]
fn values_from(
    alloc: Global,
    word: &Word,
    item: &EsiType,
    count: u32,
    start: u32,
) -> Result<Items<Value>, NoMemory>
    requires good { IsGoodType item.now }
    requires within { start + count * width_of item.now ≤ length word.now }
    requires narrow { length word.now ≤ WORD_BITS }
    requires clear { has_marked_one (repeated count (voids_of item.now)) (drop start word.now) ≡ false }
    ensures { IfOk result (λ values. PackItems item.now count values (take (count * width_of item.now) (drop start word.now))) }
{
    let width = item.width();
    let mut values = Items::new(alloc);
    let mut at = start;
    for _ in 0..count {
        values.push(value_at(alloc, word, item, at)?)?;
        at += width;
    }
    Ok(values)
}
