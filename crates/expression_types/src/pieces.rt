//! Parts of values: fields of structs and elements of arrays.
ghost use Rattle.std.specs.Prelude.{◌≡◌, ◌≤◌, ◌*◌, Some, IsSome, IfSome};
ghost use Rattle.std.specs.Option.{option_map};
ghost use Rattle.std.specs.List.{sum_by};
ghost use Rattle.design_lex.specs.declared.limits.TheConstants.{WIDEST_TYPE};
ghost use Rattle.channel_types.specs.Types.{width_of, field_width};
ghost use Rattle.esi_base.specs.Answers.{AnswersAs};
ghost use Rattle.expression_types.specs.Views.{type_in, typed_in, piece_in};
ghost use Rattle.expression_types.specs.Typing.{value_width, piece_of, field_of, element_of, field_piece, element_piece, part_of, parts_of};

use crate::typed::Typed;
use crate::value_type::{ValueType, value_width};
use channel_types::{EsiType, Field, capped_width};
use design_tree::Suffix;
use esi_base::Stop;
use netlist::Formula;
use sqlite_items::Boxed;
use std::alloc::Global;

/// A part of a value: its type, and the index of its lowest bit.
#[derive(Clone, Copy)]
pub(crate) struct Piece<'a> {
    ty: &'a EsiType,
    low: u32,
}

/// The parts that suffixes take of a value, each of what those before it give.
pub(crate) fn parts_typed<'a>(
    alloc: Global,
    of: Typed<'a>,
    suffixes: &[Suffix],
) -> Result<Typed<'a>, Stop<usize>>
    ensures { AnswersAs typed_in (parts_of suffixes.now (typed_in of.entry)) result }
{
    let mut part = of;
    for suffix in suffixes {
        part = match part_typed(alloc, part, suffix) {
            Ok(typed) => typed,
            Err(stop) => return Err(stop),
        };
    }
    Ok(part)
}

/// The part that a suffix takes of a value.
fn part_typed<'a>(alloc: Global, of: Typed<'a>, suffix: &Suffix) -> Result<Typed<'a>, Stop<usize>>
    ensures { AnswersAs typed_in (part_of (typed_in of.entry) suffix.now) result }
{
    let Some(width) = of.ty.width() else {
        return Err(Stop::Refused(of.at));
    };
    let Some(piece) = piece_of(&of.ty, suffix, width) else {
        return Err(Stop::Refused(of.at));
    };
    let Some(piece_width) = value_width(piece.ty) else {
        return Err(Stop::Refused(of.at));
    };
    let formula = Boxed::new(alloc, of.formula)?;
    Ok(Typed {
        at: of.at,
        ty: ValueType::Given(piece.ty),
        formula: Formula::Slice {
            of: formula,
            high: piece.low + piece_width - 1,
            low: piece.low,
        },
    })
}

/// The part of a type that a suffix names.
fn piece_of<'a>(ty: &ValueType<'a>, suffix: &Suffix, width: u32) -> Option<Piece<'a>>
    requires { value_width (type_in ty.now) ≡ Some width }
    ensures piece { option_map piece_in result ≡ piece_of (type_in ty.now) suffix.now }
    ensures low { IfSome result (λ piece. piece.low ≤ WIDEST_TYPE) }
{
    match ty {
        ValueType::Given(ty) => match suffix {
            Suffix::Field(name) => field_of(ty, name.octets.as_slice(), width),
            Suffix::Element(index) => element_of(ty, index.value),
        },
        ValueType::Number(_) => None,
    }
}

/// The field of a name, where the type is a struct that has it.
#[tactic(auto, unfolding(crate::specs::Typing::field_of))]
fn field_of<'a>(ty: &'a EsiType, name: &[u8], width: u32) -> Option<Piece<'a>>
    requires { value_width ty.now ≡ Some width }
    ensures piece { option_map piece_in result ≡ field_of ty.now name.now }
    ensures low { IfSome result (λ piece. piece.low ≤ WIDEST_TYPE) }
{
    match ty {
        EsiType::Bits { class: _, width: _ } => None,
        EsiType::Void => None,
        EsiType::Struct(fields) => field_piece(fields.as_slice(), name, width),
        EsiType::Array { item: _, count: _ } => None,
    }
}

/// The element at an index, where the type is an array that has it.
#[tactic(auto, unfolding(crate::specs::Typing::element_of))]
fn element_of<'a>(ty: &'a EsiType, index: u128) -> Option<Piece<'a>>
    requires { IsSome (value_width ty.now) }
    ensures piece { option_map piece_in result ≡ element_of ty.now index }
    ensures low { IfSome result (λ piece. piece.low ≤ WIDEST_TYPE) }
{
    match ty {
        EsiType::Bits { class: _, width: _ } => None,
        EsiType::Void => None,
        EsiType::Struct(_) => None,
        EsiType::Array { item, count } => element_piece(item.get(), *count, index),
    }
}

/// The first field of a name. Below it stand the fields behind it.
fn field_piece<'a>(fields: &'a [Field], name: &[u8], width: u32) -> Option<Piece<'a>>
    requires within { width ≤ WIDEST_TYPE }
    requires whole { width ≡ sum_by field_width fields.now }
    ensures piece { option_map piece_in result ≡ field_piece name.now fields.now }
    ensures low { IfSome result (λ piece. piece.low ≤ WIDEST_TYPE) }
{
    let mut rest = width;
    for field in fields {
        rest -= capped_width(&field.ty);
        if field.name.as_slice() == name {
            return Some(Piece {
                ty: &field.ty,
                low: rest,
            });
        }
    }
    None
}

/// The element at an index. Below it stand the elements before it.
fn element_piece<'a>(item: &'a EsiType, count: u32, index: u128) -> Option<Piece<'a>>
    requires { count * width_of item.now ≤ WIDEST_TYPE }
    ensures piece { option_map piece_in result ≡ element_piece index count item.now }
    ensures low { IfSome result (λ piece. piece.low ≤ WIDEST_TYPE) }
{
    if index < count as u128 {
        Some(Piece {
            ty: item,
            low: index as u32 * capped_width(item),
        })
    } else {
        None
    }
}
