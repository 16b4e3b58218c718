//! The expressions of maps and scans.
ghost use Rattle.std.specs.Prelude.{◌≡◌, IfOk};
ghost use Rattle.esi_base.specs.Answers.{AnswersAs};
ghost use Rattle.expression_types.specs.Views.{type_in, typed_in};
ghost use Rattle.expression_types.specs.Typing.{typed};
ghost use Rattle.channel_typing.specs.Rules.{map_variables, scan_variables};
ghost use Rattle.channel_typing.specs.Views.{source_in, own_in, computed_in};

use crate::own_type::{Computed, OwnType};
use crate::source_type::SourceType;
use channel_types::{EsiType, copied};
use design_tree::{Expression, Name};
use esi_base::{NoMemory, Stop};
use expression_types::{Typed, ValueType, Variable, type_expression};
use std::alloc::Global;

/// The expression of a map, over a variable of its source's type.
pub(crate) fn map_body<'b, 'a>(
    alloc: Global,
    variable: &'a Name,
    body: &'a Expression,
    source: SourceType<'b, 'a>,
) -> Result<Computed<'a>, Stop<usize>>
    ensures { AnswersAs computed_in (typed (map_variables variable.now (source_in source.entry)) body.now) result }
{
    match source {
        SourceType::Value(ValueType::Given(ty)) => map_over(alloc, variable, body, ty),
        SourceType::Value(ValueType::Number(number)) => {
            map_over_made(alloc, variable, body, &number.ty())
        }
        SourceType::Made(ty) => map_over_made(alloc, variable, body, ty),
    }
}

/// The same over a type that stands in the text.
fn map_over<'a>(
    alloc: Global,
    variable: &'a Name,
    body: &'a Expression,
    ty: &'a EsiType,
) -> Result<Computed<'a>, Stop<usize>>
    ensures { AnswersAs computed_in (typed (map_variables variable.now ty.now) body.now) result }
{
    match map_typed(alloc, variable, body, ty) {
        Ok(typed) => Ok(Computed {
            at: typed.at,
            ty: OwnType::Value(typed.ty),
            formula: typed.formula,
        }),
        Err(stop) => Err(stop),
    }
}

/// The same over another type, of which nothing is kept.
fn map_over_made<'b, 'a>(
    alloc: Global,
    variable: &'a Name,
    body: &'a Expression,
    ty: &'b EsiType,
) -> Result<Computed<'a>, Stop<usize>>
    ensures { AnswersAs computed_in (typed (map_variables variable.now ty.now) body.now) result }
{
    match map_typed(alloc, variable, body, ty) {
        Ok(typed) => Ok(Computed {
            at: typed.at,
            ty: own(alloc, typed.ty)?,
            formula: typed.formula,
        }),
        Err(stop) => Err(stop),
    }
}

/// The expression of a map, over a variable of a type.
fn map_typed<'b>(
    alloc: Global,
    variable: &'b Name,
    body: &'b Expression,
    ty: &'b EsiType,
) -> Result<Typed<'b>, Stop<usize>>
    ensures { AnswersAs typed_in (typed (map_variables variable.now ty.now) body.now) result }
{
    let variables = [Variable {
        name: variable.octets.as_slice(),
        ty,
    }];
    type_expression(alloc, &variables, body)
}

/// A type of its own.
fn own<'b, 'a>(alloc: Global, ty: ValueType<'b>) -> Result<OwnType<'a>, NoMemory>
    ensures { IfOk result (λ own. own_in own ≡ type_in ty.entry) }
{
    match ty {
        ValueType::Given(given) => Ok(OwnType::Own(copied(alloc, given)?)),
        ValueType::Number(number) => Ok(OwnType::Value(ValueType::Number(number))),
    }
}

/// The expression of a scan, over its state and a variable of a type.
pub(crate) fn scan_typed<'b>(
    alloc: Global,
    state: &'b Name,
    state_type: &'b EsiType,
    variable: &'b Name,
    ty: &'b EsiType,
    body: &'b Expression,
) -> Result<Typed<'b>, Stop<usize>>
    ensures { AnswersAs typed_in (typed (scan_variables state.now state_type.now variable.now ty.now) body.now) result }
{
    let variables = [
        Variable {
            name: state.octets.as_slice(),
            ty: state_type,
        },
        Variable {
            name: variable.octets.as_slice(),
            ty,
        },
    ];
    type_expression(alloc, &variables, body)
}
