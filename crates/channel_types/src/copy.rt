//! Copies of types.
ghost use Rattle.std.specs.Prelude.{◌≡◌, IfOk};
ghost use Rattle.channel_types.specs.Types.{IsGoodType};

use crate::esi_type::{EsiType, Field};
use esi_base::{List, NoMemory};
use sqlite_items::{Boxed, Items};
use std::alloc::Global;

impl EsiType {
    /// A copy, which is the same type.
    pub fn copy(&self, alloc: Global) -> Result<EsiType, NoMemory>
        requires { IsGoodType self.now }
        ensures equal { IfOk result (λ copy. copy ≡ self.now) }
        ensures good { IfOk result (λ copy. IsGoodType copy) }
    {
        copied(alloc, self)
    }
}

/// A copy of a type, which need not be good.
pub fn copied(alloc: Global, ty: &EsiType) -> Result<EsiType, NoMemory>
    ensures { IfOk result (λ copy. copy ≡ ty.now) }
{
    match ty {
        EsiType::Bits { class, width } => Ok(EsiType::Bits {
            class: *class,
            width: *width,
        }),
        EsiType::Void => Ok(EsiType::Void),
        EsiType::Struct(fields) => {
            let mut copies = Items::new(alloc);
            for field in fields.as_slice() {
                copies.push(Field {
                    name: List::from_slice(alloc, field.name.as_slice())?,
                    ty: copied(alloc, &field.ty)?,
                })?;
            }
            Ok(EsiType::Struct(copies))
        }
        EsiType::Array { item, count } => Ok(EsiType::Array {
            item: Boxed::new(alloc, copied(alloc, item.get())?)?,
            count: *count,
        }),
    }
}
