//! Expressions: operands first, from left to right, then the expression itself.
ghost use Rattle.std.specs.Prelude.{◌≤◌, length, map};
ghost use Rattle.esi_base.specs.Answers.{AnswersAs};
ghost use Rattle.expression_types.specs.Views.{variable_in, typed_in};
ghost use Rattle.expression_types.specs.Typing.{typed};

use crate::limits::MAX_VARIABLES;
use crate::literals::literal_typed;
use crate::making::{Parts, make_typed};
use crate::pairs::{mux_typed, not_typed, pair_typed};
use crate::pieces::parts_typed;
use crate::resizing::{cast_typed, slice_typed, zext_typed};
use crate::typed::{Typed, Variable};
use crate::variables::variable_typed;
use design_tree::Expression;
use esi_base::Stop;
use std::alloc::Global;

/// The type of an expression and its formula, or the offset of the innermost expression that does not fit,
/// the first of them in the text. It calls itself as deep as the expression is nested.
pub fn type_expression<'a>(
    alloc: Global,
    variables: &[Variable<'a>],
    expression: &'a Expression,
) -> Result<Typed<'a>, Stop<usize>>
    requires { length variables.now ≤ MAX_VARIABLES }
    ensures { AnswersAs typed_in (typed (map variable_in variables.now) expression.now) result }
{
    match expression {
        Expression::Variable(name) => variable_typed(variables, name),
        Expression::Part { of, suffixes } => match type_expression(alloc, variables, of.get()) {
            Ok(of) => parts_typed(alloc, of, suffixes.as_slice()),
            Err(stop) => Err(stop),
        },
        Expression::Literal { at, ty, value } => literal_typed(*at, ty, value.value),
        Expression::Make { at, ty, parts } => {
            let mut made = Parts::new(alloc);
            for part in parts.as_slice() {
                match type_expression(alloc, variables, part) {
                    Ok(part) => made.add(part)?,
                    Err(stop) => return Err(stop),
                }
            }
            make_typed(*at, ty, made)
        }
        Expression::Cast { at, ty, of } => match type_expression(alloc, variables, of.get()) {
            Ok(of) => cast_typed(*at, ty, of),
            Err(stop) => Err(stop),
        },
        Expression::Zext { at, width, of } => match type_expression(alloc, variables, of.get()) {
            Ok(of) => zext_typed(alloc, *at, width.value, of),
            Err(stop) => Err(stop),
        },
        Expression::Slice { at, high, low, of } => {
            match type_expression(alloc, variables, of.get()) {
                Ok(of) => slice_typed(alloc, *at, high.value, low.value, of),
                Err(stop) => Err(stop),
            }
        }
        Expression::Not { at, of } => match type_expression(alloc, variables, of.get()) {
            Ok(of) => not_typed(alloc, *at, of),
            Err(stop) => Err(stop),
        },
        Expression::Binary {
            at,
            operator,
            left,
            right,
        } => match type_expression(alloc, variables, left.get()) {
            Ok(left) => match type_expression(alloc, variables, right.get()) {
                Ok(right) => pair_typed(alloc, *at, *operator, left, right),
                Err(stop) => Err(stop),
            },
            Err(stop) => Err(stop),
        },
        Expression::Mux {
            at,
            condition,
            when_one,
            when_zero,
        } => match type_expression(alloc, variables, condition.get()) {
            Ok(condition) => match type_expression(alloc, variables, when_one.get()) {
                Ok(one) => match type_expression(alloc, variables, when_zero.get()) {
                    Ok(other) => mux_typed(alloc, *at, condition, one, other),
                    Err(stop) => Err(stop),
                },
                Err(stop) => Err(stop),
            },
            Err(stop) => Err(stop),
        },
    }
}
