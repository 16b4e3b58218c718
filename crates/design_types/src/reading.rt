//! The readers of the grammar's parts. Each reads from the next token on, and goes past what it read.
ghost use Rattle.std.specs.Prelude.{◌≡◌, ◌-◌};
ghost use Rattle.esi_base.specs.Answers.{ReadsAs};
ghost use Rattle.esi_base.specs.declared.stop.Stop.TheVariants.{Refused as stop_refused};
ghost use Rattle.ll1_grammar.specs.Kinds.{among};
ghost use Rattle.design_grammar.specs.Grammar.{AnswersAt, StandsAt};
ghost use Rattle.design_grammar.specs.Kinds as kinds;
ghost use Rattle.design_grammar.specs.Lists.{one_more, after_comma};
ghost use Rattle.design_grammar.specs.Rules.{type_first_set};
ghost use Rattle.design_types.specs.TypeReading as spec;

use crate::rules::broken_rule;
use channel_types::{EsiType, Field};
use design_grammar::reading::{count, expect, name, refuse, type_word};
use design_grammar::{GrammarRule, Kind, TokenRefusal, TokenStop, is_same, kind_of};
use design_lex::Cursor;
use esi_base::Stop;
use sqlite_items::{Boxed, Items};
use std::alloc::Global;

/// A type word: the type, and the offset after it.
#[tactic(auto, unfolding(crate::specs::TypeReading::bits))]
fn bits(cursor: &mut Cursor<'_>) -> Result<(EsiType, usize), TokenStop>
    ensures reads { AnswersAt (spec.bits cursor.old) result cursor.new }
    ensures stands { StandsAt result cursor.new }
{
    let ((class, width), end) = type_word(cursor)?;
    Ok((EsiType::Bits { class, width }, end))
}

/// The word `void`: the type, and the offset after it.
#[tactic(auto, unfolding(crate::specs::TypeReading::void))]
fn void(cursor: &mut Cursor<'_>) -> Result<(EsiType, usize), TokenStop>
    ensures reads { AnswersAt (spec.void cursor.old) result cursor.new }
    ensures stands { StandsAt result cursor.new }
{
    let end = expect(cursor, Kind::Void)?;
    Ok((EsiType::Void, end))
}

/// Whether a type may begin with a token of this kind.
fn begins_type(kind: Kind) -> bool
    ensures { result ≡ among type_first_set (kinds.code kind) }
{
    matches!(
        kind,
        Kind::TypeWord | Kind::Void | Kind::Struct | Kind::Array
    )
}

/// The stop where no further type may be open: that of too many types, where one begins.
#[tactic(auto, unfolding(crate::specs::TypeReading::too_deep))]
fn too_deep(cursor: &Cursor<'_>) -> TokenStop
    ensures { result ≡ stop_refused (spec.too_deep cursor.now) }
{
    if begins_type(kind_of(cursor.peek())) {
        return Stop::Refused(TokenRefusal {
            number: GrammarRule::TooManyOpenTypes.number(),
            at: cursor.token_begin(),
        });
    }
    refuse(cursor, Kind::TypeWord)
}

/// A type, with at most so many open at a place, itself counted: the type, and the offset after it.
#[cycle(a_type)]
#[tactic(auto, unfolding(crate::specs::TypeReading::type_at))]
pub fn type_at(
    cursor: &mut Cursor<'_>,
    alloc: Global,
    levels: u32,
) -> Result<(EsiType, usize), TokenStop>
    ensures reads { AnswersAt (spec.type_at levels cursor.old) result cursor.new }
    ensures stands { StandsAt result cursor.new }
{
    if levels == 0 {
        return Err(too_deep(cursor));
    }
    let begin = cursor.token_begin();
    let found = level(cursor, alloc, levels - 1)?;
    match broken_rule(alloc, &found.0)? {
        None => Ok(found),
        Some(rule) => Err(Stop::Refused(TokenRefusal {
            number: rule.number(),
            at: begin,
        })),
    }
}

/// One level of a type; in it so many levels may be open.
#[cycle(a_type)]
#[tactic(auto, unfolding(crate::specs::TypeReading::level))]
fn level(cursor: &mut Cursor<'_>, alloc: Global, levels: u32) -> Result<(EsiType, usize), TokenStop>
    ensures reads { AnswersAt (spec.level (spec.type_at levels) cursor.old) result cursor.new }
    ensures stands { StandsAt result cursor.new }
{
    let kind = kind_of(cursor.peek());
    if is_same(kind, Kind::TypeWord) {
        bits(cursor)
    } else if is_same(kind, Kind::Void) {
        void(cursor)
    } else if is_same(kind, Kind::Struct) {
        struct_type(cursor, alloc, levels)
    } else {
        array_type(cursor, alloc, levels)
    }
}

/// A field of a struct.
#[cycle(a_type)]
#[tactic(auto, unfolding(crate::specs::TypeReading::field))]
fn field(cursor: &mut Cursor<'_>, alloc: Global, levels: u32) -> Result<Field, TokenStop>
    ensures reads { AnswersAt (spec.field (spec.type_at levels) cursor.old) result cursor.new }
    ensures stands { StandsAt result cursor.new }
{
    let (name, _) = name(cursor, alloc)?;
    expect(cursor, Kind::Colon)?;
    let (ty, _) = type_at(cursor, alloc, levels)?;
    Ok(Field { name, ty })
}

/// One more field after a comma.
#[cycle(a_type)]
#[tactic(auto, unfolding(design_grammar::specs::Lists::one_more))]
fn one_more(
    cursor: &mut Cursor<'_>,
    alloc: Global,
    levels: u32,
    fields: &mut Items<Field>,
) -> Result<(), TokenStop>
    ensures reads { ReadsAs (λ _. fields.new) (one_more (after_comma (spec.field (spec.type_at levels))) fields.old cursor.old) result cursor.new }
    ensures stands { StandsAt result cursor.new }
{
    expect(cursor, Kind::Comma)?;
    let field = field(cursor, alloc, levels)?;
    fields.push(field)?;
    Ok(())
}

/// All fields of a struct, of which the first was read.
#[cycle(a_type)]
fn more_fields(
    cursor: &mut Cursor<'_>,
    alloc: Global,
    levels: u32,
    first: Field,
) -> Result<Items<Field>, TokenStop>
    ensures reads { AnswersAt (spec.more_fields (spec.type_at levels) first cursor.old) result cursor.new }
    ensures stands { StandsAt result cursor.new }
{
    let mut fields = Items::new(alloc);
    fields.push(first)?;
    while is_same(kind_of(cursor.peek()), Kind::Comma) {
        one_more(cursor, alloc, levels, &mut fields)?;
    }
    Ok(fields)
}

/// A struct: the type, and the offset after it.
#[cycle(a_type)]
#[tactic(auto, unfolding(crate::specs::TypeReading::struct_type))]
fn struct_type(
    cursor: &mut Cursor<'_>,
    alloc: Global,
    levels: u32,
) -> Result<(EsiType, usize), TokenStop>
    ensures reads { AnswersAt (spec.struct_type (spec.type_at levels) cursor.old) result cursor.new }
    ensures stands { StandsAt result cursor.new }
{
    expect(cursor, Kind::Struct)?;
    expect(cursor, Kind::Less)?;
    let first = field(cursor, alloc, levels)?;
    let fields = more_fields(cursor, alloc, levels, first)?;
    let end = expect(cursor, Kind::Greater)?;
    Ok((EsiType::Struct(fields), end))
}

/// An array: the type, and the offset after it.
#[cycle(a_type)]
#[tactic(auto, unfolding(crate::specs::TypeReading::array_type))]
fn array_type(
    cursor: &mut Cursor<'_>,
    alloc: Global,
    levels: u32,
) -> Result<(EsiType, usize), TokenStop>
    ensures reads { AnswersAt (spec.array_type (spec.type_at levels) cursor.old) result cursor.new }
    ensures stands { StandsAt result cursor.new }
{
    expect(cursor, Kind::Array)?;
    expect(cursor, Kind::Less)?;
    let (item, _) = type_at(cursor, alloc, levels)?;
    expect(cursor, Kind::Comma)?;
    let count = count(cursor)?;
    let end = expect(cursor, Kind::Greater)?;
    let item = Boxed::new(alloc, item)?;
    Ok((EsiType::Array { item, count }, end))
}
