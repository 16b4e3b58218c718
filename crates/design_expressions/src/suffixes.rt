//! The readers of suffixes: fields of structs, and elements of arrays.
ghost use Rattle.std.specs.Prelude.{◌≡◌, IfOk};
ghost use Rattle.design_grammar.specs.Grammar.{AnswersAt, StandsAt};
ghost use Rattle.design_expressions.specs.ExpressionValues as values;
ghost use Rattle.design_expressions.specs.ExpressionReading as spec;

use crate::words::{next_name, next_number};
use design_grammar::reading::expect;
use design_grammar::{Kind, Listed, TokenStop, is_same, kind_of};
use design_lex::Cursor;
use design_tree::{Expression, Suffix};
use esi_base::{List, NoMemory};
use sqlite_items::Boxed;
use std::alloc::Global;

/// A field: a dot and its name.
#[tactic(auto, unfolding(crate::specs::ExpressionReading::field))]
fn field(cursor: &mut Cursor<'_>, alloc: Global) -> Result<Suffix, TokenStop>
    ensures reads { AnswersAt (spec.field cursor.old) result cursor.new }
    ensures stands { StandsAt result cursor.new }
{
    expect(cursor, Kind::Dot)?;
    let name = next_name(cursor, alloc)?;
    Ok(Suffix::Field(name))
}

/// An element: its index in brackets.
#[tactic(auto, unfolding(crate::specs::ExpressionReading::element))]
fn element(cursor: &mut Cursor<'_>) -> Result<Suffix, TokenStop>
    ensures reads { AnswersAt (spec.element cursor.old) result cursor.new }
    ensures stands { StandsAt result cursor.new }
{
    expect(cursor, Kind::OpenBracket)?;
    let index = next_number(cursor)?;
    expect(cursor, Kind::CloseBracket)?;
    Ok(Suffix::Element(index))
}

/// One suffix.
#[tactic(auto, unfolding(crate::specs::ExpressionReading::suffix))]
fn suffix(cursor: &mut Cursor<'_>, alloc: Global) -> Result<Suffix, TokenStop>
    ensures reads { AnswersAt (spec.suffix cursor.old) result cursor.new }
    ensures stands { StandsAt result cursor.new }
{
    if is_same(kind_of(cursor.peek()), Kind::Dot) {
        field(cursor, alloc)
    } else {
        element(cursor)
    }
}

/// The list of the suffixes after an expression.
pub struct Suffixes;

impl Listed for Suffixes {
    ghost use Rattle.std.specs.Prelude.{refl};
    ghost use Rattle.design_expressions.specs.ExpressionSteps.{suffix_shorter};

    type Item = Suffix;

    ghost reader = { spec.suffix };

    ghost starts = { spec.suffix_starts };

    fn begins(kind: Kind) -> bool {
        matches!(kind, Kind::Dot | Kind::OpenBracket)
    }

    fn next(cursor: &mut Cursor<'_>, alloc: Global) -> Result<Suffix, TokenStop> {
        suffix(cursor, alloc)
    }

    ghost shorter = { suffix_shorter };

    ghost ends = { refl };
}

/// An expression and the suffixes after it.
pub fn with_suffixes(
    alloc: Global,
    of: Expression,
    suffixes: List<Suffix>,
) -> Result<Expression, NoMemory>
    ensures { IfOk result (λ found. found ≡ values.with_suffixes of suffixes) }
{
    if suffixes.is_empty() {
        return Ok(of);
    }
    let of = Boxed::new(alloc, of)?;
    Ok(Expression::Part { of, suffixes })
}
