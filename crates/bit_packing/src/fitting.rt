//! Which values are of a type.
ghost use Rattle.std.specs.Prelude.{◌≡◌, map};
ghost use Rattle.std.specs.List.{list_all};
ghost use Rattle.channel_types.specs.Types.{IsGoodType};
ghost use Rattle.bit_packing.specs.Fitting.{fits_of, field_fits, fits_fields};

use crate::value::Value;
use esi_types::{EsiType, Field};

/// Whether the value is one of the type: a number of its width, `void` for `void`, a value for each
/// field of a struct that fits it, as many items as an array has, each of which fits. It takes no memory.
pub fn fits(value: &Value, ty: &EsiType) -> bool
    requires { IsGoodType ty.now }
    ensures { result ≡ fits_of ty.now value.now }
{
    is_of_type(value, ty)
}

/// The same for a type that need not be good.
#[cycle(fitting)]
fn is_of_type(value: &Value, ty: &EsiType) -> bool
    ensures { result ≡ fits_of ty.now value.now }
{
    match (ty, value) {
        (EsiType::Bits { class: _, width }, Value::Number(word)) => word.width() == *width,
        (EsiType::Void, Value::Void) => true,
        (EsiType::Struct(fields), Value::Struct(values)) => {
            are_of_fields(values.as_slice(), fields.as_slice())
        }
        (EsiType::Array { item, count }, Value::Array(values)) => {
            values.len() == *count as usize && are_of_item(values.as_slice(), item.get())
        }
        _ => false,
    }
}

/// Whether there is a value for each field, and it fits that field's type.
#[cycle(fitting)]
fn are_of_fields(values: &[Value], fields: &[Field]) -> bool
    ensures { result ≡ fits_fields (map field_fits fields.now) values.now }
{
    if values.len() != fields.len() {
        return false;
    }
    for (field, value) in fields.iter().zip(values) {
        if !is_of_type(value, &field.ty) {
            return false;
        }
    }
    true
}

/// Whether each of the values fits the type.
#[cycle(fitting)]
fn are_of_item(values: &[Value], item: &EsiType) -> bool
    ensures { result ≡ list_all (fits_of item.now) values.now }
{
    for value in values {
        if !is_of_type(value, item) {
            return false;
        }
    }
    true
}
