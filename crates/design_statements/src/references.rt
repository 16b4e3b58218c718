//! The readers of application ids, and of what statements refer to.
ghost use Rattle.design_grammar.specs.Grammar.{AnswersAt, StandsAt};
ghost use Rattle.design_statements.specs.StatementReading as spec;

use design_expressions::next_name;
use design_grammar::reading::{count, expect};
use design_grammar::{Kind, TokenStop, is_same, kind_of};
use design_lex::Cursor;
use design_tree::{ApplicationId, Name, Reference};
use std::alloc::Global;

/// An index: a number in brackets.
#[tactic(auto, unfolding(crate::specs::StatementReading::index))]
fn index(cursor: &mut Cursor<'_>) -> Result<u32, TokenStop>
    ensures reads { AnswersAt (spec.index cursor.old) result cursor.new }
    ensures stands { StandsAt result cursor.new }
{
    expect(cursor, Kind::OpenBracket)?;
    let index = count(cursor)?;
    expect(cursor, Kind::CloseBracket)?;
    Ok(index)
}

/// An index, where a bracket stands.
#[tactic(auto, unfolding(crate::specs::StatementReading::optional_index))]
fn optional_index(cursor: &mut Cursor<'_>) -> Result<Option<u32>, TokenStop>
    ensures reads { AnswersAt (spec.optional_index cursor.old) result cursor.new }
    ensures stands { StandsAt result cursor.new }
{
    if is_same(kind_of(cursor.peek()), Kind::OpenBracket) {
        Ok(Some(index(cursor)?))
    } else {
        Ok(None)
    }
}

/// An application id: a name and, where it has one, an index.
#[tactic(auto, unfolding(crate::specs::StatementReading::id))]
pub fn next_id(cursor: &mut Cursor<'_>, alloc: Global) -> Result<ApplicationId, TokenStop>
    ensures reads { AnswersAt (spec.id cursor.old) result cursor.new }
    ensures stands { StandsAt result cursor.new }
{
    let name = next_name(cursor, alloc)?;
    let index = optional_index(cursor)?;
    Ok(ApplicationId { name, index })
}

/// A dot and a name.
#[tactic(auto, unfolding(crate::specs::StatementReading::member_name))]
fn member_name(cursor: &mut Cursor<'_>, alloc: Global) -> Result<Name, TokenStop>
    ensures reads { AnswersAt (spec.member_name cursor.old) result cursor.new }
    ensures stands { StandsAt result cursor.new }
{
    expect(cursor, Kind::Dot)?;
    next_name(cursor, alloc)
}

/// A member of an id of this name and an index.
#[tactic(auto, unfolding(crate::specs::StatementReading::indexed_member))]
fn indexed_member(
    cursor: &mut Cursor<'_>,
    alloc: Global,
    name: Name,
) -> Result<Reference, TokenStop>
    ensures reads { AnswersAt (spec.indexed_member name cursor.old) result cursor.new }
    ensures stands { StandsAt result cursor.new }
{
    let index = Some(index(cursor)?);
    let member = member_name(cursor, alloc)?;
    Ok(Reference::Member {
        id: ApplicationId { name, index },
        name: member,
    })
}

/// A member of an id of this name alone.
#[tactic(auto, unfolding(crate::specs::StatementReading::plain_member))]
fn plain_member(cursor: &mut Cursor<'_>, alloc: Global, name: Name) -> Result<Reference, TokenStop>
    ensures reads { AnswersAt (spec.plain_member name cursor.old) result cursor.new }
    ensures stands { StandsAt result cursor.new }
{
    let member = member_name(cursor, alloc)?;
    Ok(Reference::Member {
        id: ApplicationId { name, index: None },
        name: member,
    })
}

/// The reference that begins with this name, by what follows it.
#[tactic(auto, unfolding(crate::specs::StatementReading::member_or_channel))]
fn member_or_channel(
    cursor: &mut Cursor<'_>,
    alloc: Global,
    name: Name,
) -> Result<Reference, TokenStop>
    ensures reads { AnswersAt (spec.member_or_channel name cursor.old) result cursor.new }
    ensures stands { StandsAt result cursor.new }
{
    let kind = kind_of(cursor.peek());
    if is_same(kind, Kind::OpenBracket) {
        indexed_member(cursor, alloc, name)
    } else if is_same(kind, Kind::Dot) {
        plain_member(cursor, alloc, name)
    } else {
        Ok(Reference::Channel(name))
    }
}

/// A reference: a channel, or an application id, a dot and a member.
#[tactic(auto, unfolding(crate::specs::StatementReading::reference))]
pub fn next_reference(cursor: &mut Cursor<'_>, alloc: Global) -> Result<Reference, TokenStop>
    ensures reads { AnswersAt (spec.reference cursor.old) result cursor.new }
    ensures stands { StandsAt result cursor.new }
{
    let name = next_name(cursor, alloc)?;
    member_or_channel(cursor, alloc, name)
}
