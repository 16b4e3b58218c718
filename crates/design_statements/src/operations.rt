//! The readers of operations, which make channels from others.
ghost use Rattle.design_grammar.specs.Grammar.{AnswersAt, StandsAt};
ghost use Rattle.channel_types.specs.declared.limits.TheConstants.{OPEN_TYPES};
ghost use Rattle.design_expressions.specs.declared.limits.TheConstants.{OPEN_EXPRESSIONS};
ghost use Rattle.design_types.specs.TypeReading.{type_at};
ghost use Rattle.design_expressions.specs.ExpressionReading.{expression_at};
ghost use Rattle.design_statements.specs.StatementReading as spec;

use crate::references::next_reference;
use design_expressions::{next_expression, next_name, next_number};
use design_grammar::reading::expect;
use design_grammar::{Kind, TokenStop, is_same, kind_of};
use design_lex::Cursor;
use design_tree::{Number, Operation, Reference};
use design_types::next_type;
use std::alloc::Global;

/// A word, and a reference.
#[tactic(auto, unfolding(crate::specs::StatementReading::operand))]
fn operand(cursor: &mut Cursor<'_>, alloc: Global, word: Kind) -> Result<Reference, TokenStop>
    ensures reads { AnswersAt (spec.operand word cursor.old) result cursor.new }
    ensures stands { StandsAt result cursor.new }
{
    expect(cursor, word)?;
    next_reference(cursor, alloc)
}

/// A word, a number and a reference.
#[tactic(auto, unfolding(crate::specs::StatementReading::sized_operand))]
fn sized_operand(
    cursor: &mut Cursor<'_>,
    alloc: Global,
    word: Kind,
) -> Result<(Number, Reference), TokenStop>
    ensures reads { AnswersAt (spec.sized_operand word cursor.old) result cursor.new }
    ensures stands { StandsAt result cursor.new }
{
    expect(cursor, word)?;
    let size = next_number(cursor)?;
    let source = next_reference(cursor, alloc)?;
    Ok((size, source))
}

/// `join`: two channels in step.
#[tactic(auto, unfolding(crate::specs::StatementReading::join))]
fn join(cursor: &mut Cursor<'_>, alloc: Global) -> Result<Operation, TokenStop>
    ensures reads { AnswersAt (spec.join cursor.old) result cursor.new }
    ensures stands { StandsAt result cursor.new }
{
    expect(cursor, Kind::Join)?;
    let left = next_reference(cursor, alloc)?;
    expect(cursor, Kind::Comma)?;
    let right = next_reference(cursor, alloc)?;
    Ok(Operation::Join { left, right })
}

/// `map`: a function of each value.
#[tactic(auto, unfolding(crate::specs::StatementReading::map))]
fn map(cursor: &mut Cursor<'_>, alloc: Global) -> Result<Operation, TokenStop>
    ensures reads { AnswersAt (spec.map (type_at OPEN_TYPES) (expression_at OPEN_EXPRESSIONS) cursor.old) result cursor.new }
    ensures stands { StandsAt result cursor.new }
{
    expect(cursor, Kind::Map)?;
    let source = next_reference(cursor, alloc)?;
    expect(cursor, Kind::OpenParenthesis)?;
    let variable = next_name(cursor, alloc)?;
    expect(cursor, Kind::CloseParenthesis)?;
    let body = next_expression(cursor, alloc)?;
    Ok(Operation::Map {
        source,
        variable,
        body,
    })
}

/// `scan`: a function of a state and each value.
#[tactic(auto, unfolding(crate::specs::StatementReading::scan))]
fn scan(cursor: &mut Cursor<'_>, alloc: Global) -> Result<Operation, TokenStop>
    ensures reads { AnswersAt (spec.scan (type_at OPEN_TYPES) (expression_at OPEN_EXPRESSIONS) cursor.old) result cursor.new }
    ensures stands { StandsAt result cursor.new }
{
    expect(cursor, Kind::Scan)?;
    let source = next_reference(cursor, alloc)?;
    expect(cursor, Kind::OpenParenthesis)?;
    let state = next_name(cursor, alloc)?;
    expect(cursor, Kind::Colon)?;
    let (ty, _) = next_type(cursor, alloc)?;
    expect(cursor, Kind::Equals)?;
    let initial = next_number(cursor)?;
    expect(cursor, Kind::Comma)?;
    let variable = next_name(cursor, alloc)?;
    expect(cursor, Kind::CloseParenthesis)?;
    let body = next_expression(cursor, alloc)?;
    Ok(Operation::Scan {
        source,
        state,
        ty,
        initial,
        variable,
        body,
    })
}

/// An operation that has more than a number and a reference.
#[tactic(auto, unfolding(crate::specs::StatementReading::wide_operation))]
fn wide_operation(cursor: &mut Cursor<'_>, alloc: Global) -> Result<Operation, TokenStop>
    ensures reads { AnswersAt (spec.wide_operation (type_at OPEN_TYPES) (expression_at OPEN_EXPRESSIONS) cursor.old) result cursor.new }
    ensures stands { StandsAt result cursor.new }
{
    let kind = kind_of(cursor.peek());
    if is_same(kind, Kind::Join) {
        join(cursor, alloc)
    } else if is_same(kind, Kind::Map) {
        map(cursor, alloc)
    } else {
        scan(cursor, alloc)
    }
}

/// An operation that has more than a reference.
#[tactic(auto, unfolding(crate::specs::StatementReading::sized_operation))]
fn sized_operation(cursor: &mut Cursor<'_>, alloc: Global) -> Result<Operation, TokenStop>
    ensures reads { AnswersAt (spec.sized_operation (type_at OPEN_TYPES) (expression_at OPEN_EXPRESSIONS) cursor.old) result cursor.new }
    ensures stands { StandsAt result cursor.new }
{
    let kind = kind_of(cursor.peek());
    if is_same(kind, Kind::Buffer) {
        let (stages, source) = sized_operand(cursor, alloc, Kind::Buffer)?;
        Ok(Operation::Buffer { stages, source })
    } else if is_same(kind, Kind::Fifo) {
        let (depth, source) = sized_operand(cursor, alloc, Kind::Fifo)?;
        Ok(Operation::Fifo { depth, source })
    } else {
        wide_operation(cursor, alloc)
    }
}

/// An operation.
#[tactic(auto, unfolding(crate::specs::StatementReading::operation))]
pub fn next_operation(cursor: &mut Cursor<'_>, alloc: Global) -> Result<Operation, TokenStop>
    ensures reads { AnswersAt (spec.operation (type_at OPEN_TYPES) (expression_at OPEN_EXPRESSIONS) cursor.old) result cursor.new }
    ensures stands { StandsAt result cursor.new }
{
    let kind = kind_of(cursor.peek());
    if is_same(kind, Kind::Stage) {
        Ok(Operation::Stage(operand(cursor, alloc, Kind::Stage)?))
    } else if is_same(kind, Kind::Fork) {
        Ok(Operation::Fork(operand(cursor, alloc, Kind::Fork)?))
    } else if is_same(kind, Kind::AsFifo) {
        Ok(Operation::AsFifo(operand(cursor, alloc, Kind::AsFifo)?))
    } else if is_same(kind, Kind::AsVr) {
        Ok(Operation::AsVr(operand(cursor, alloc, Kind::AsVr)?))
    } else {
        sized_operation(cursor, alloc)
    }
}
