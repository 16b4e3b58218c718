//! The readers of names, numbers and operators.
ghost use Rattle.std.specs.Prelude.{◌≡◌, IfOk};
ghost use Rattle.design_grammar.specs.Grammar.{AnswersAt, StandsAt};
ghost use Rattle.design_expressions.specs.ExpressionValues as values;
ghost use Rattle.design_expressions.specs.ExpressionReading as spec;

use crate::shapes::binary_of;
use design_grammar::kind::is_binary;
use design_grammar::reading::{name, number, operator, refuse};
use design_grammar::{Kind, TokenStop, kind_of};
use design_lex::{Cursor, Spelling};
use design_tree::{Binary, Expression, Name, Number};
use esi_base::{List, NoMemory};
use std::alloc::Global;

/// A word of the text, as a variable.
pub fn variable(alloc: Global, word: (Spelling<'_>, usize)) -> Result<Expression, NoMemory>
    ensures { IfOk result (λ found. found ≡ values.variable word.entry) }
{
    let (spelling, at) = word;
    let octets = List::from_slice(alloc, spelling.octets())?;
    Ok(Expression::Variable(Name { octets, at }))
}

/// A name that is no operator, as a variable.
#[tactic(auto, unfolding(crate::specs::ExpressionReading::plain))]
pub fn plain(cursor: &mut Cursor<'_>, alloc: Global) -> Result<Expression, TokenStop>
    ensures reads { AnswersAt (spec.plain cursor.old) result cursor.new }
    ensures stands { StandsAt result cursor.new }
{
    let word = operator(cursor, Kind::Name)?;
    Ok(variable(alloc, word)?)
}

/// A name, with the offset of its first octet.
#[tactic(auto, unfolding(crate::specs::ExpressionReading::next_name))]
pub fn next_name(cursor: &mut Cursor<'_>, alloc: Global) -> Result<Name, TokenStop>
    ensures reads { AnswersAt (spec.next_name cursor.old) result cursor.new }
    ensures stands { StandsAt result cursor.new }
{
    let (octets, at) = name(cursor, alloc)?;
    Ok(Name { octets, at })
}

/// A number, with the offset of its first octet.
#[tactic(auto, unfolding(crate::specs::ExpressionReading::next_number))]
pub fn next_number(cursor: &mut Cursor<'_>) -> Result<Number, TokenStop>
    ensures reads { AnswersAt (spec.next_number cursor.old) result cursor.new }
    ensures stands { StandsAt result cursor.new }
{
    let (value, at) = number(cursor)?;
    Ok(Number { value, at })
}

/// An operator of two operands, and its word.
pub fn binary_word<'a>(
    cursor: &mut Cursor<'a>,
) -> Result<(Binary, (Spelling<'a>, usize)), TokenStop>
    ensures reads { AnswersAt (spec.binary_word cursor.old) result cursor.new }
    ensures stands { StandsAt result cursor.new }
{
    let kind = kind_of(cursor.peek());
    if !is_binary(kind) {
        return Err(refuse(cursor, Kind::Name));
    }
    let word = operator(cursor, kind)?;
    Ok((binary_of(kind), word))
}
