//! Structs of their fields, and arrays of their elements.
ghost use Rattle.std.specs.Prelude.{◌≡◌, map, OnOk};
ghost use Rattle.esi_base.specs.Answers.{AnswersAs};
ghost use Rattle.expression_types.specs.Views.{type_in, typed_in, parts_in};
ghost use Rattle.expression_types.specs.Typing.{no_parts, with_part, make_of, join_of, fields_given, elements_given};

use crate::typed::Typed;
use crate::value_type::{ValueType, value_width};
use channel_types::{EsiType, Field};
use esi_base::{List, NoMemory, Stop};
use netlist::{Formula, Half};
use sqlite_items::Items;
use std::alloc::Global;

/// Parts that are typed: their types, and their formulas.
#[derive(Drop)]
pub(crate) struct Parts<'a> {
    types: List<ValueType<'a>>,
    formulas: Items<Formula>,
}

impl<'a> Parts<'a> {
    /// No parts.
    pub(crate) fn new(alloc: Global) -> Parts<'a>
        ensures { parts_in result ≡ no_parts }
    {
        Parts {
            types: List::new(alloc),
            formulas: Items::new(alloc),
        }
    }

    /// Adds a part behind those that stand.
    pub(crate) fn add(&mut self, part: Typed<'a>) -> Result<(), NoMemory>
        ensures { OnOk result (parts_in self.new ≡ with_part (parts_in self.old) (typed_in part.entry)) }
    {
        self.types.add(part.ty)?;
        self.formulas.push(part.formula)?;
        Ok(())
    }
}

/// A struct or an array of parts.
pub(crate) fn make_typed<'a>(
    at: usize,
    ty: &'a EsiType,
    parts: Parts<'a>,
) -> Result<Typed<'a>, Stop<usize>>
    ensures { AnswersAs typed_in (make_of at ty.now (parts_in parts.entry)) result }
{
    let Some(_width) = value_width(ty) else {
        return Err(Stop::Refused(at));
    };
    let Some(so_far) = join_of(ty, parts.types.as_slice()) else {
        return Err(Stop::Refused(at));
    };
    Ok(Typed {
        at,
        ty: ValueType::Given(ty),
        formula: Formula::Join {
            parts: parts.formulas,
            so_far,
        },
    })
}

/// How parts are joined, where they are those of a type.
#[tactic(auto, unfolding(crate::specs::Typing::join_of))]
fn join_of<'a>(ty: &EsiType, types: &[ValueType<'a>]) -> Option<Half>
    ensures { result ≡ join_of ty.now (map type_in types.now) }
{
    match ty {
        EsiType::Bits { class: _, width: _ } => None,
        EsiType::Void => None,
        EsiType::Struct(fields) => {
            if are_fields(fields.as_slice(), types) {
                Some(Half::High)
            } else {
                None
            }
        }
        EsiType::Array { item, count } => {
            if are_elements(item.get(), *count, types) {
                Some(Half::Low)
            } else {
                None
            }
        }
    }
}

/// Whether there is one part for each field, of its type.
fn are_fields<'a>(fields: &[Field], types: &[ValueType<'a>]) -> bool
    ensures { result ≡ fields_given fields.now (map type_in types.now) }
{
    if fields.len() != types.len() {
        return false;
    }
    for (field, ty) in fields.iter().zip(types) {
        if !ty.is(&field.ty) {
            return false;
        }
    }
    true
}

/// Whether there are as many parts as elements, each of the item's type.
fn are_elements<'a>(item: &EsiType, count: u32, types: &[ValueType<'a>]) -> bool
    ensures { result ≡ elements_given item.now count (map type_in types.now) }
{
    if types.len() != count as usize {
        return false;
    }
    for ty in types {
        if !ty.is(item) {
            return false;
        }
    }
    true
}
