//! The packing of a value.
ghost use Rattle.std.specs.Prelude.{◌≡◌, ◌≤◌, ◌*◌, IsTrue, All, map, length};
ghost use Rattle.std.specs.List.{list_all, sum_by};
ghost use Rattle.channel_types.specs.Types.{IsGoodType, width_of, field_width};
ghost use Rattle.bit_packing.specs.Fitting.{fits_of, field_fits, fits_fields};
ghost use Rattle.bit_packing.specs.Packing.{bits_of_value, field_bits, first_highest, first_lowest, IsPacking};

use crate::value::Value;
use esi_base::Word;
use esi_base::word::WORD_BITS;
use esi_types::{EsiType, Field};

/// The packing of a value that fits the type. A number gives its own bits, `void` one bit that is 0, a
/// struct the bits of its fields, the first field most significant, and an array those of its items, the
/// first item least significant. It takes no memory.
pub fn pack(value: &Value, ty: &EsiType) -> Word
    requires good { IsGoodType ty.now }
    requires fits { IsTrue (fits_of ty.now value.now) }
    ensures bits { result ≡ bits_of_value ty.now value.now }
    ensures width { length result ≡ width_of ty.now }
    ensures packing { IsPacking result ty.now }
{
    packed(value, ty)
}

/// The same.
#[cycle(packing)]
fn packed(value: &Value, ty: &EsiType) -> Word
    requires good { IsGoodType ty.now }
    requires fits { IsTrue (fits_of ty.now value.now) }
    ensures bits { result ≡ bits_of_value ty.now value.now }
    ensures width { length result ≡ width_of ty.now }
{
    match (ty, value) {
        (EsiType::Bits { .. }, Value::Number(word)) => *word,
        (EsiType::Void, Value::Void) => Word::zero(1),
        (EsiType::Struct(fields), Value::Struct(values)) => {
            packed_fields(values.as_slice(), fields.as_slice())
        }
        (EsiType::Array { item, .. }, Value::Array(values)) => {
            packed_items(values.as_slice(), item.get())
        }
        _ => unreachable!(),
    }
}

/// The values of a struct's fields, of at least one, as one word.
#[cycle(packing)]
fn packed_fields(values: &[Value], fields: &[Field]) -> Word
    requires good { All (λ f. IsGoodType f.ty) fields.now }
    requires fits { IsTrue (fits_fields (map field_fits fields.now) values.now) }
    requires some { 1 ≤ length fields.now }
    requires narrow { sum_by field_width fields.now ≤ WORD_BITS }
    ensures bits { result ≡ first_highest (map field_bits fields.now) values.now }
    ensures width { length result ≡ sum_by field_width fields.now }
{
    let mut word = packed(&values[0], &fields[0].ty);
    for at in 1..fields.len() {
        word = word.concat(&packed(&values[at], &fields[at].ty));
    }
    word
}

/// The items of an array, of at least one, as one word.
#[cycle(packing)]
fn packed_items(values: &[Value], item: &EsiType) -> Word
    requires good { IsGoodType item.now }
    requires fits { IsTrue (list_all (fits_of item.now) values.now) }
    requires some { 1 ≤ length values.now }
    requires narrow { length values.now * width_of item.now ≤ WORD_BITS }
    ensures bits { result ≡ first_lowest (bits_of_value item.now) values.now }
    ensures width { length result ≡ length values.now * width_of item.now }
{
    let [value, values @ ..] = values else {
        unreachable!()
    };
    let mut word = packed(value, item);
    for value in values {
        word = packed(value, item).concat(&word);
    }
    word
}
