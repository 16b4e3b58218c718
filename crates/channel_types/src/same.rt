//! When two types are the same.
ghost use Rattle.std.specs.Prelude.{◌≡◌, IsTrue, ◌↔◌};
ghost use Rattle.channel_types.specs.Types.{IsGoodType};
ghost use Rattle.channel_types.specs.SameTypes.{same_types};
ghost use Rattle.channel_types.specs.SameTypesLaws.{IsTest};

use crate::esi_type::{EsiType, Field};

impl EsiType {
    /// Whether the two are one type, their fields' names included. It takes no memory.
    pub fn same(&self, other: &EsiType) -> bool
        requires good { IsGoodType self.now }
        requires good_other { IsGoodType other.now }
        ensures { IsTrue result ↔ (self.now ≡ other.now) }
    {
        are_same(self, other)
    }
}

/// Whether the two, which need not be good, are one type, their fields' names included. It takes no
/// memory.
pub fn are_same(ty: &EsiType, other: &EsiType) -> bool
    ensures same { IsTrue result ↔ (ty.now ≡ other.now) }

    // What it gives can be worked out.
    ensures computed { result ≡ same_types ty.now other.now }
{
    are_one(ty, other)
}

/// Whether the two are one type.
#[cycle(same)]
fn are_one(ty: &EsiType, other: &EsiType) -> bool
    ensures { IsTrue result ↔ (ty.now ≡ other.now) }
{
    match (ty, other) {
        (
            EsiType::Bits { class, width },
            EsiType::Bits {
                class: other_class,
                width: other_width,
            },
        ) => *class == *other_class && *width == *other_width,
        (EsiType::Void, EsiType::Void) => true,
        (EsiType::Struct(fields), EsiType::Struct(others)) => {
            have_same_fields(fields.as_slice(), others.as_slice())
        }
        (
            EsiType::Array { item, count },
            EsiType::Array {
                item: other_item,
                count: other_count,
            },
        ) => *count == *other_count && are_one(item.get(), other_item.get()),
        _ => false,
    }
}

/// Whether the fields have the same names and types, in the same order.
#[cycle(same)]
fn have_same_fields(fields: &[Field], others: &[Field]) -> bool
    ensures { IsTrue result ↔ (fields.now ≡ others.now) }
{
    if fields.len() != others.len() {
        return false;
    }
    for (field, other) in fields.iter().zip(others) {
        if field.name.as_slice() != other.name.as_slice() || !are_one(&field.ty, &other.ty) {
            return false;
        }
    }
    true
}

/// `same_types` decides whether two types are one. It does nothing when it runs.
#[tactic(auto, using(crate::specs::SameTypesLaws::is_test))]
pub fn same_types_law()
    ensures { (ty : EsiType) → IsTest ty }
{}
