//! The same bits, more, or fewer: casts, zero extensions and slices.
ghost use Rattle.std.specs.Prelude.{◌≡◌, ◌≤◌, ◌<◌, IfOk};
ghost use Rattle.esi_base.specs.Answers.{AnswersAs};
ghost use Rattle.expression_types.specs.Views.{typed_in};
ghost use Rattle.expression_types.specs.Typing.{cast_of, zext_of, slice_of, extended, extends, same_width};

use crate::number_type::NumberType;
use crate::typed::Typed;
use crate::value_type::{ValueType, value_width};
use crate::voids::has_void;
use channel_types::{Class, EsiType, WIDEST_TYPE};
use esi_base::{NoMemory, Stop, Word};
use netlist::{Formula, Half};
use sqlite_items::Boxed;
use std::alloc::Global;

/// A cast.
pub(crate) fn cast_typed<'a>(
    at: usize,
    ty: &'a EsiType,
    of: Typed<'a>,
) -> Result<Typed<'a>, Stop<usize>>
    ensures { AnswersAs typed_in (cast_of at ty.now (typed_in of.entry)) result }
{
    if are_as_wide(value_width(ty), of.ty.width()) && !has_void(ty) {
        Ok(Typed {
            at,
            ty: ValueType::Given(ty),
            formula: of.formula,
        })
    } else {
        Err(Stop::Refused(at))
    }
}

/// Whether there are two widths, and they are the same.
fn are_as_wide(one: Option<u32>, other: Option<u32>) -> bool
    ensures { result ≡ same_width one other }
{
    match (one, other) {
        (Some(a), Some(b)) => a == b,
        (Some(_), None) => false,
        (None, _) => false,
    }
}

/// A zero extension.
pub(crate) fn zext_typed<'a>(
    alloc: Global,
    at: usize,
    width: u128,
    of: Typed<'a>,
) -> Result<Typed<'a>, Stop<usize>>
    ensures { AnswersAs typed_in (zext_of at width (typed_in of.entry)) result }
{
    let Some(number) = of.ty.number() else {
        return Err(Stop::Refused(at));
    };
    if !extends(&number, width) {
        return Err(Stop::Refused(at));
    }
    let formula = extended(alloc, of.formula, width as u32 - number.width)?;
    Ok(Typed {
        at,
        ty: ValueType::Number(NumberType {
            class: number.class,
            width: width as u32,
        }),
        formula,
    })
}

/// Whether numbers of a type may be extended to so many bits.
fn extends(number: &NumberType, width: u128) -> bool
    ensures { result ≡ extends number.now width }
{
    !number.is_signed() && (number.width as u128 <= width && width <= WIDEST_TYPE as u128)
}

/// A formula with so many zero bits above it, which may be none.
fn extended(alloc: Global, formula: Formula, zero_bits: u32) -> Result<Formula, NoMemory>
    requires { zero_bits ≤ 1024 }
    ensures { IfOk result (λ made. made ≡ extended formula zero_bits) }
{
    if zero_bits == 0 {
        return Ok(formula);
    }
    let high = Boxed::new(alloc, Formula::Const(Word::zero(zero_bits)))?;
    let low = Boxed::new(alloc, formula)?;
    Ok(Formula::Concat {
        high,
        low,
        first: Half::Low,
    })
}

/// A slice.
pub(crate) fn slice_typed<'a>(
    alloc: Global,
    at: usize,
    high: u128,
    low: u128,
    of: Typed<'a>,
) -> Result<Typed<'a>, Stop<usize>>
    ensures { AnswersAs typed_in (slice_of at high low (typed_in of.entry)) result }
{
    let Some(width) = of.ty.width() else {
        return Err(Stop::Refused(at));
    };
    if !(low <= high && high < width as u128) {
        return Err(Stop::Refused(at));
    }
    let formula = Boxed::new(alloc, of.formula)?;
    Ok(Typed {
        at,
        ty: ValueType::Number(NumberType {
            class: Class::Plain,
            width: high as u32 - low as u32 + 1,
        }),
        formula: Formula::Slice {
            of: formula,
            high: high as u32,
            low: low as u32,
        },
    })
}
