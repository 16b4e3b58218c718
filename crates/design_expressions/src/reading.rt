//! The readers of expressions. Each reads from the next token on, and goes past what it read.
ghost use Rattle.std.specs.Prelude.{◌-◌, Err};
ghost use Rattle.esi_base.specs.Answers.{StopsAs, ReadsAs};
ghost use Rattle.design_grammar.specs.Grammar.{AnswersAt, StandsAt};
ghost use Rattle.design_grammar.specs.Lists.{one_more, after_comma};
ghost use Rattle.design_tree.specs.declared.expression.Expression.{Expression};
ghost use Rattle.design_expressions.specs.declared.limits.TheConstants.{OPEN_EXPRESSIONS};
ghost use Rattle.design_expressions.specs.ExpressionReading as spec;

use crate::limits::OPEN_EXPRESSIONS;
use crate::shapes::Shape;
use crate::suffixes::{Suffixes, with_suffixes};
use crate::words::{binary_word, next_number, plain, variable};
use design_grammar::kind::{is_binary, is_name};
use design_grammar::reading::{expect, operator, refuse};
use design_grammar::{GrammarRule, Kind, TokenRefusal, TokenStop, is_same, kind_of, next_items};
use design_lex::{Cursor, Spelling};
use design_tree::{Binary, Expression};
use design_types::next_type;
use esi_base::Stop;
use sqlite_items::{Boxed, Items};
use std::alloc::Global;

/// The refusal where no further expression may be open: by the limit where an expression begins.
#[tactic(auto, unfolding(crate::specs::ExpressionReading::too_deep))]
fn too_deep(cursor: &Cursor<'_>) -> TokenStop
    ensures stops { StopsAs (spec.too_deep cursor.now) result }
    ensures stands { StandsAt {A = Expression} (Err result) cursor.now }
{
    if is_name(kind_of(cursor.peek())) {
        return Stop::Refused(TokenRefusal {
            number: GrammarRule::TooManyOpenExpressions.number(),
            at: cursor.token_begin(),
        });
    }
    refuse(cursor, Kind::Name)
}

/// A type and a number.
#[tactic(auto, unfolding(crate::specs::ExpressionReading::literal))]
fn literal(cursor: &mut Cursor<'_>, alloc: Global, at: usize) -> Result<Expression, TokenStop>
    ensures reads { AnswersAt (spec.literal at cursor.old) result cursor.new }
    ensures stands { StandsAt result cursor.new }
{
    let (ty, _) = next_type(cursor, alloc)?;
    expect(cursor, Kind::Comma)?;
    let value = next_number(cursor)?;
    Ok(Expression::Literal { at, ty, value })
}

/// One more part, after a comma.
#[cycle(expression)]
#[tactic(auto, unfolding(design_grammar::specs::Lists::one_more))]
fn one_more(
    cursor: &mut Cursor<'_>,
    alloc: Global,
    levels: u32,
    parts: &mut Items<Expression>,
) -> Result<(), TokenStop>
    ensures reads { ReadsAs (λ _. parts.new) (one_more (after_comma (spec.expression_at levels)) parts.old cursor.old) result cursor.new }
    ensures stands { StandsAt result cursor.new }
{
    expect(cursor, Kind::Comma)?;
    let part = expression_at(cursor, alloc, levels)?;
    parts.push(part)?;
    Ok(())
}

/// All parts, each after a comma.
#[cycle(expression)]
fn parts(
    cursor: &mut Cursor<'_>,
    alloc: Global,
    levels: u32,
) -> Result<Items<Expression>, TokenStop>
    ensures reads { AnswersAt (spec.parts (spec.expression_at levels) cursor.old) result cursor.new }
    ensures stands { StandsAt result cursor.new }
{
    let mut parts = Items::new(alloc);
    while is_same(kind_of(cursor.peek()), Kind::Comma) {
        one_more(cursor, alloc, levels, &mut parts)?;
    }
    Ok(parts)
}

/// A type and the parts of a value of it.
#[cycle(expression)]
#[tactic(auto, unfolding(crate::specs::ExpressionReading::make))]
fn make(
    cursor: &mut Cursor<'_>,
    alloc: Global,
    levels: u32,
    at: usize,
) -> Result<Expression, TokenStop>
    ensures reads { AnswersAt (spec.make (spec.expression_at levels) at cursor.old) result cursor.new }
    ensures stands { StandsAt result cursor.new }
{
    let (ty, _) = next_type(cursor, alloc)?;
    let parts = parts(cursor, alloc, levels)?;
    Ok(Expression::Make { at, ty, parts })
}

/// An expression in memory of its own.
#[cycle(expression)]
fn operand(
    cursor: &mut Cursor<'_>,
    alloc: Global,
    levels: u32,
) -> Result<Boxed<Expression>, TokenStop>
    ensures reads { AnswersAt (spec.expression_at levels cursor.old) result cursor.new }
    ensures stands { StandsAt result cursor.new }
{
    let found = expression_at(cursor, alloc, levels)?;
    Ok(Boxed::new(alloc, found)?)
}

/// Two expressions.
#[cycle(expression)]
#[tactic(auto, unfolding(crate::specs::ExpressionReading::pair))]
fn pair(
    cursor: &mut Cursor<'_>,
    alloc: Global,
    levels: u32,
) -> Result<(Boxed<Expression>, Boxed<Expression>), TokenStop>
    ensures reads { AnswersAt (spec.pair (spec.expression_at levels) cursor.old) result cursor.new }
    ensures stands { StandsAt result cursor.new }
{
    let left = operand(cursor, alloc, levels)?;
    expect(cursor, Kind::Comma)?;
    let right = operand(cursor, alloc, levels)?;
    Ok((left, right))
}

/// A type and an expression.
#[cycle(expression)]
#[tactic(auto, unfolding(crate::specs::ExpressionReading::cast))]
fn cast(
    cursor: &mut Cursor<'_>,
    alloc: Global,
    levels: u32,
    at: usize,
) -> Result<Expression, TokenStop>
    ensures reads { AnswersAt (spec.cast (spec.expression_at levels) at cursor.old) result cursor.new }
    ensures stands { StandsAt result cursor.new }
{
    let (ty, _) = next_type(cursor, alloc)?;
    expect(cursor, Kind::Comma)?;
    let of = operand(cursor, alloc, levels)?;
    Ok(Expression::Cast { at, ty, of })
}

/// A width and an expression.
#[cycle(expression)]
#[tactic(auto, unfolding(crate::specs::ExpressionReading::zext))]
fn zext(
    cursor: &mut Cursor<'_>,
    alloc: Global,
    levels: u32,
    at: usize,
) -> Result<Expression, TokenStop>
    ensures reads { AnswersAt (spec.zext (spec.expression_at levels) at cursor.old) result cursor.new }
    ensures stands { StandsAt result cursor.new }
{
    let width = next_number(cursor)?;
    expect(cursor, Kind::Comma)?;
    let of = operand(cursor, alloc, levels)?;
    Ok(Expression::Zext { at, width, of })
}

/// The highest bit, the lowest one, and an expression.
#[cycle(expression)]
#[tactic(auto, unfolding(crate::specs::ExpressionReading::slice))]
fn slice(
    cursor: &mut Cursor<'_>,
    alloc: Global,
    levels: u32,
    at: usize,
) -> Result<Expression, TokenStop>
    ensures reads { AnswersAt (spec.slice (spec.expression_at levels) at cursor.old) result cursor.new }
    ensures stands { StandsAt result cursor.new }
{
    let high = next_number(cursor)?;
    expect(cursor, Kind::Comma)?;
    let low = next_number(cursor)?;
    expect(cursor, Kind::Comma)?;
    let of = operand(cursor, alloc, levels)?;
    Ok(Expression::Slice { at, high, low, of })
}

/// An expression that is complemented.
#[cycle(expression)]
#[tactic(auto, unfolding(crate::specs::ExpressionReading::not))]
fn not(
    cursor: &mut Cursor<'_>,
    alloc: Global,
    levels: u32,
    at: usize,
) -> Result<Expression, TokenStop>
    ensures reads { AnswersAt (spec.not (spec.expression_at levels) at cursor.old) result cursor.new }
    ensures stands { StandsAt result cursor.new }
{
    let of = operand(cursor, alloc, levels)?;
    Ok(Expression::Not { at, of })
}

/// Two operands.
#[cycle(expression)]
#[tactic(auto, unfolding(crate::specs::ExpressionReading::two))]
fn two(
    cursor: &mut Cursor<'_>,
    alloc: Global,
    levels: u32,
    operator: Binary,
    at: usize,
) -> Result<Expression, TokenStop>
    ensures reads { AnswersAt (spec.two (spec.expression_at levels) operator at cursor.old) result cursor.new }
    ensures stands { StandsAt result cursor.new }
{
    let (left, right) = pair(cursor, alloc, levels)?;
    Ok(Expression::Binary {
        at,
        operator,
        left,
        right,
    })
}

/// A condition, and an expression for each of its values.
#[cycle(expression)]
#[tactic(auto, unfolding(crate::specs::ExpressionReading::mux))]
fn mux(
    cursor: &mut Cursor<'_>,
    alloc: Global,
    levels: u32,
    at: usize,
) -> Result<Expression, TokenStop>
    ensures reads { AnswersAt (spec.mux (spec.expression_at levels) at cursor.old) result cursor.new }
    ensures stands { StandsAt result cursor.new }
{
    let condition = operand(cursor, alloc, levels)?;
    expect(cursor, Kind::Comma)?;
    let (when_one, when_zero) = pair(cursor, alloc, levels)?;
    Ok(Expression::Mux {
        at,
        condition,
        when_one,
        when_zero,
    })
}

/// What stands between the parentheses of an operator whose word begins at the offset.
#[cycle(expression)]
#[tactic(auto, unfolding(crate::specs::ExpressionReading::inside))]
fn inside(
    cursor: &mut Cursor<'_>,
    alloc: Global,
    levels: u32,
    shape: Shape,
    at: usize,
) -> Result<Expression, TokenStop>
    ensures reads { AnswersAt (spec.inside (spec.expression_at levels) shape at cursor.old) result cursor.new }
    ensures stands { StandsAt result cursor.new }
{
    match shape {
        Shape::Literal => literal(cursor, alloc, at),
        Shape::Make => make(cursor, alloc, levels, at),
        Shape::Cast => cast(cursor, alloc, levels, at),
        Shape::Zext => zext(cursor, alloc, levels, at),
        Shape::Slice => slice(cursor, alloc, levels, at),
        Shape::Not => not(cursor, alloc, levels, at),
        Shape::Two(operator) => two(cursor, alloc, levels, operator, at),
        Shape::Mux => mux(cursor, alloc, levels, at),
    }
}

/// What stands between parentheses, and these.
#[cycle(expression)]
#[tactic(auto, unfolding(crate::specs::ExpressionReading::in_parentheses))]
fn in_parentheses(
    cursor: &mut Cursor<'_>,
    alloc: Global,
    levels: u32,
    shape: Shape,
    at: usize,
) -> Result<Expression, TokenStop>
    ensures reads { AnswersAt (spec.in_parentheses (spec.inside (spec.expression_at levels) shape at) cursor.old) result cursor.new }
    ensures stands { StandsAt result cursor.new }
{
    expect(cursor, Kind::OpenParenthesis)?;
    let found = inside(cursor, alloc, levels, shape, at)?;
    expect(cursor, Kind::CloseParenthesis)?;
    Ok(found)
}

/// The word of an operator: with operands after it the operator, else a variable.
#[cycle(expression)]
#[tactic(auto, unfolding(crate::specs::ExpressionReading::application))]
fn application(
    cursor: &mut Cursor<'_>,
    alloc: Global,
    levels: u32,
    shape: Shape,
    word: (Spelling<'_>, usize),
) -> Result<Expression, TokenStop>
    ensures reads { AnswersAt (spec.application (spec.expression_at levels) shape word.entry cursor.old) result cursor.new }
    ensures stands { StandsAt result cursor.new }
{
    if is_same(kind_of(cursor.peek()), Kind::OpenParenthesis) {
        in_parentheses(cursor, alloc, levels, shape, word.1)
    } else {
        Ok(variable(alloc, word)?)
    }
}

/// An operator, or a variable of its name.
#[cycle(expression)]
#[tactic(auto, unfolding(crate::specs::ExpressionReading::operation))]
fn operation(
    cursor: &mut Cursor<'_>,
    alloc: Global,
    levels: u32,
    kind: Kind,
    shape: Shape,
) -> Result<Expression, TokenStop>
    ensures reads { AnswersAt (spec.operation (spec.expression_at levels) kind shape cursor.old) result cursor.new }
    ensures stands { StandsAt result cursor.new }
{
    let word = operator(cursor, kind)?;
    application(cursor, alloc, levels, shape, word)
}

/// An operator of two operands, or a variable of its name.
#[cycle(expression)]
#[tactic(auto, unfolding(crate::specs::ExpressionReading::binary))]
fn binary(cursor: &mut Cursor<'_>, alloc: Global, levels: u32) -> Result<Expression, TokenStop>
    ensures reads { AnswersAt (spec.binary (spec.expression_at levels) cursor.old) result cursor.new }
    ensures stands { StandsAt result cursor.new }
{
    let (operator, word) = binary_word(cursor)?;
    application(cursor, alloc, levels, Shape::Two(operator), word)
}

/// An expression without its suffixes that is no name, `lit`, `make` or `cast`.
#[cycle(expression)]
#[tactic(auto, unfolding(crate::specs::ExpressionReading::of_bits))]
fn of_bits(cursor: &mut Cursor<'_>, alloc: Global, levels: u32) -> Result<Expression, TokenStop>
    ensures reads { AnswersAt (spec.of_bits (spec.expression_at levels) cursor.old) result cursor.new }
    ensures stands { StandsAt result cursor.new }
{
    let kind = kind_of(cursor.peek());
    if is_same(kind, Kind::Zext) {
        operation(cursor, alloc, levels, Kind::Zext, Shape::Zext)
    } else if is_same(kind, Kind::Slice) {
        operation(cursor, alloc, levels, Kind::Slice, Shape::Slice)
    } else if is_same(kind, Kind::Not) {
        operation(cursor, alloc, levels, Kind::Not, Shape::Not)
    } else if is_binary(kind) {
        binary(cursor, alloc, levels)
    } else {
        operation(cursor, alloc, levels, Kind::Mux, Shape::Mux)
    }
}

/// An expression without its suffixes.
#[cycle(expression)]
#[tactic(auto, unfolding(crate::specs::ExpressionReading::base))]
fn base(cursor: &mut Cursor<'_>, alloc: Global, levels: u32) -> Result<Expression, TokenStop>
    ensures reads { AnswersAt (spec.base (spec.expression_at levels) cursor.old) result cursor.new }
    ensures stands { StandsAt result cursor.new }
{
    let kind = kind_of(cursor.peek());
    if is_same(kind, Kind::Name) {
        plain(cursor, alloc)
    } else if is_same(kind, Kind::Lit) {
        operation(cursor, alloc, levels, Kind::Lit, Shape::Literal)
    } else if is_same(kind, Kind::Make) {
        operation(cursor, alloc, levels, Kind::Make, Shape::Make)
    } else if is_same(kind, Kind::Cast) {
        operation(cursor, alloc, levels, Kind::Cast, Shape::Cast)
    } else {
        of_bits(cursor, alloc, levels)
    }
}

/// An expression and its suffixes.
#[cycle(expression)]
#[tactic(auto, unfolding(crate::specs::ExpressionReading::level))]
fn level(cursor: &mut Cursor<'_>, alloc: Global, levels: u32) -> Result<Expression, TokenStop>
    ensures reads { AnswersAt (spec.level (spec.expression_at levels) cursor.old) result cursor.new }
    ensures stands { StandsAt result cursor.new }
{
    let found = base(cursor, alloc, levels)?;
    let suffixes = next_items::<Suffixes>(cursor, alloc)?;
    Ok(with_suffixes(alloc, found, suffixes)?)
}

/// An expression, with at most so many inside one another, itself counted.
#[cycle(expression)]
#[tactic(auto, unfolding(crate::specs::ExpressionReading::expression_at))]
fn expression_at(
    cursor: &mut Cursor<'_>,
    alloc: Global,
    levels: u32,
) -> Result<Expression, TokenStop>
    ensures reads { AnswersAt (spec.expression_at levels cursor.old) result cursor.new }
    ensures stands { StandsAt result cursor.new }
{
    if levels == 0 {
        return Err(too_deep(cursor));
    }
    level(cursor, alloc, levels - 1)
}

/// Reads the expression that comes next, and goes past it. It serves the readers of longer texts.
///
/// It is refused at the first token with which no expression goes on, at its first octet or at the end:
///
/// - 201 an octet that begins no token, 202 a word that is too long, 203 a bad number, or an array's
///   count above 2^32 - 1;
/// - 206 the end of the text, where more is needed;
/// - 207 a keyword or a type word where only a name may stand;
/// - 205 any other token;
///
/// or where a limit is broken:
///
/// - 208 at the first token of an expression inside `OPEN_EXPRESSIONS` others;
/// - 101, 102 and 103 of a type in it, as `read_type` reports them.
///
/// It stops otherwise only when it runs out of memory.
pub fn next_expression(cursor: &mut Cursor<'_>, alloc: Global) -> Result<Expression, TokenStop>
    ensures reads { AnswersAt (spec.expression_at OPEN_EXPRESSIONS cursor.old) result cursor.new }
    ensures stands { StandsAt result cursor.new }
{
    expression_at(cursor, alloc, OPEN_EXPRESSIONS)
}
