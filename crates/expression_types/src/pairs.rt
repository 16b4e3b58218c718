//! Operators of one operand or several: complements, operators of two operands, multiplexers.
ghost use Rattle.std.specs.Prelude.{◌≡◌, Some, IfOk};
ghost use Rattle.design_tree.specs.declared.operators.Binary.TheVariants.{Eq};
ghost use Rattle.std.specs.Option.{option_map};
ghost use Rattle.esi_base.specs.Answers.{AnswersAs};
ghost use Rattle.expression_types.specs.Views.{type_in, typed_in};
ghost use Rattle.expression_types.specs.Typing.{not_of, pair_of, pair_type, pair_formula, mux_of, value_width, BIT, common_number, bitwise_at, arithmetic_at, less_at, cat_at, is_bit, is_narrow, is_arithmetic};

use crate::number_type::NumberType;
use crate::typed::Typed;
use crate::value_type::ValueType;
use channel_types::{Class, WIDEST_TYPE};
use design_tree::Binary;
use esi_base::{NoMemory, Stop};
use netlist::{Formula, Half, MAX_NUMBER_WIDTH};
use sqlite_items::Boxed;
use std::alloc::Global;

/// A complement.
pub(crate) fn not_typed<'a>(
    alloc: Global,
    at: usize,
    of: Typed<'a>,
) -> Result<Typed<'a>, Stop<usize>>
    ensures { AnswersAs typed_in (not_of at (typed_in of.entry)) result }
{
    let Some(_number) = of.ty.number() else {
        return Err(Stop::Refused(at));
    };
    let formula = Boxed::new(alloc, of.formula)?;
    Ok(Typed {
        at,
        ty: of.ty,
        formula: Formula::Not(formula),
    })
}

/// An operator of two operands.
pub(crate) fn pair_typed<'a>(
    alloc: Global,
    at: usize,
    operator: Binary,
    left: Typed<'a>,
    right: Typed<'a>,
) -> Result<Typed<'a>, Stop<usize>>
    ensures { AnswersAs typed_in (pair_of at operator (typed_in left.entry) (typed_in right.entry)) result }
{
    let Some(ty) = pair_type(operator, &left.ty, &right.ty) else {
        return Err(Stop::Refused(at));
    };
    let formula = pair_formula(alloc, operator, left.formula, right.formula)?;
    Ok(Typed { at, ty, formula })
}

/// The type of an operator of two operands, where they fit it.
fn pair_type<'a>(
    operator: Binary,
    left: &ValueType<'a>,
    right: &ValueType<'a>,
) -> Option<ValueType<'a>>
    ensures { option_map type_in result ≡ pair_type operator (type_in left.now) (type_in right.now) }
{
    match operator {
        Binary::And => bitwise_type(left, right),
        Binary::Or => bitwise_type(left, right),
        Binary::Xor => bitwise_type(left, right),
        Binary::Add => arithmetic_type(left, right),
        Binary::Sub => arithmetic_type(left, right),
        Binary::Eq => equal_type(left, right),
        Binary::Lt => less_type(left, right),
        Binary::Cat => cat_type(left, right),
    }
}

/// The bits type that both are.
#[tactic(auto, unfolding(crate::specs::Typing::common_number))]
fn common_number<'a>(left: &ValueType<'a>, right: &ValueType<'a>) -> Option<NumberType>
    ensures { result ≡ common_number (type_in left.now) (type_in right.now) }
{
    if left.is_same(right) {
        left.number()
    } else {
        None
    }
}

/// The type of `and`, `or` and `xor`.
fn bitwise_type<'a>(left: &ValueType<'a>, right: &ValueType<'a>) -> Option<ValueType<'a>>
    ensures { option_map type_in result ≡ bitwise_at (type_in left.now) (common_number (type_in left.now) (type_in right.now)) }
{
    match common_number(left, right) {
        Some(_) => Some(*left),
        None => None,
    }
}

/// The type of `add` and `sub`.
fn arithmetic_type<'a>(left: &ValueType<'a>, right: &ValueType<'a>) -> Option<ValueType<'a>>
    ensures { option_map type_in result ≡ arithmetic_at (type_in left.now) (common_number (type_in left.now) (type_in right.now)) }
{
    match common_number(left, right) {
        Some(number) => {
            if is_arithmetic(&number) {
                Some(*left)
            } else {
                None
            }
        }
        None => None,
    }
}

/// Whether numbers of a type may be added: they are no plain bits, and not too wide.
fn is_arithmetic(number: &NumberType) -> bool
    ensures { result ≡ is_arithmetic number.now }
{
    (number.is_unsigned() || number.is_signed()) && is_narrow(number)
}

/// Whether numbers of a type are narrow enough to be added or compared.
fn is_narrow(number: &NumberType) -> bool
    ensures { result ≡ is_narrow number.now }
{
    number.width <= MAX_NUMBER_WIDTH
}

/// The type of one bit.
fn bit<'a>() -> ValueType<'a>
    ensures { type_in result ≡ BIT }
{
    ValueType::Number(NumberType {
        class: Class::Unsigned,
        width: 1,
    })
}

/// The type of `eq`.
fn equal_type<'a>(left: &ValueType<'a>, right: &ValueType<'a>) -> Option<ValueType<'a>>
    ensures { option_map type_in result ≡ pair_type Eq (type_in left.now) (type_in right.now) }
{
    if left.is_same(right) {
        Some(bit())
    } else {
        None
    }
}

/// The type of `lt`.
fn less_type<'a>(left: &ValueType<'a>, right: &ValueType<'a>) -> Option<ValueType<'a>>
    ensures { option_map type_in result ≡ less_at (common_number (type_in left.now) (type_in right.now)) }
{
    match common_number(left, right) {
        Some(number) => {
            if number.is_unsigned() && is_narrow(&number) {
                Some(bit())
            } else {
                None
            }
        }
        None => None,
    }
}

/// The type of `cat`.
fn cat_type<'a>(left: &ValueType<'a>, right: &ValueType<'a>) -> Option<ValueType<'a>>
    ensures { option_map type_in result ≡ cat_at (value_width (type_in left.now)) (value_width (type_in right.now)) }
{
    match (left.width(), right.width()) {
        (Some(a), Some(b)) => joined_type(a, b),
        (Some(_), None) => None,
        (None, _) => None,
    }
}

/// The type of plain bits of two widths together.
fn joined_type<'a>(high: u32, low: u32) -> Option<ValueType<'a>>
    ensures { option_map type_in result ≡ cat_at (Some high) (Some low) }
{
    let width = high as u64 + low as u64;
    if width <= WIDEST_TYPE as u64 {
        Some(ValueType::Number(NumberType {
            class: Class::Plain,
            width: width as u32,
        }))
    } else {
        None
    }
}

/// The formula of an operator of two operands.
fn pair_formula(
    alloc: Global,
    operator: Binary,
    left: Formula,
    right: Formula,
) -> Result<Formula, NoMemory>
    ensures { IfOk result (λ formula. formula ≡ pair_formula operator left right) }
{
    let left = Boxed::new(alloc, left)?;
    let right = Boxed::new(alloc, right)?;
    Ok(match operator {
        Binary::And => Formula::And(left, right),
        Binary::Or => Formula::Or(left, right),
        Binary::Xor => Formula::Xor(left, right),
        Binary::Add => Formula::Add(left, right),
        Binary::Sub => Formula::Sub(left, right),
        Binary::Eq => Formula::Equal(left, right),
        Binary::Lt => Formula::Less(left, right),
        Binary::Cat => Formula::Concat {
            high: left,
            low: right,
            first: Half::High,
        },
    })
}

/// A multiplexer.
pub(crate) fn mux_typed<'a>(
    alloc: Global,
    at: usize,
    condition: Typed<'a>,
    one: Typed<'a>,
    other: Typed<'a>,
) -> Result<Typed<'a>, Stop<usize>>
    ensures { AnswersAs typed_in (mux_of at (typed_in condition.entry) (typed_in one.entry) (typed_in other.entry)) result }
{
    if !(is_bit(condition.ty.number()) && one.ty.is_same(&other.ty)) {
        return Err(Stop::Refused(at));
    }
    let condition_formula = Boxed::new(alloc, condition.formula)?;
    let one_formula = Boxed::new(alloc, one.formula)?;
    let other_formula = Boxed::new(alloc, other.formula)?;
    Ok(Typed {
        at,
        ty: one.ty,
        formula: Formula::Choose(condition_formula, one_formula, other_formula),
    })
}

/// Whether a bits type is one bit without sign.
fn is_bit(number: Option<NumberType>) -> bool
    ensures { result ≡ is_bit number }
{
    match number {
        Some(number) => !number.is_signed() && number.width == 1,
        None => false,
    }
}
