//! The readers of bundles.
ghost use Rattle.design_grammar.specs.Kinds.{names};
ghost use Rattle.design_grammar.specs.Grammar.{AnswersAt, StandsAt};
ghost use Rattle.design_expressions.specs.declared.limits.TheConstants.{OPEN_EXPRESSIONS};
ghost use Rattle.design_types.specs.TypeReading.{type_at};
ghost use Rattle.channel_types.specs.declared.limits.TheConstants.{OPEN_TYPES};
ghost use Rattle.design_reader.specs.DesignReading as spec;

use design_expressions::next_name;
use design_grammar::kind::is_name;
use design_grammar::reading::expect;
use design_grammar::{Kind, Listed, TokenStop, is_same, items_after, kind_of};
use design_lex::Cursor;
use design_tree::{Bundle, Direction, Member};
use design_types::next_type;
use std::alloc::Global;

/// `to_hw`
#[tactic(auto, unfolding(crate::specs::DesignReading::to_hardware))]
fn to_hardware(cursor: &mut Cursor<'_>) -> Result<Direction, TokenStop>
    ensures reads { AnswersAt (spec.to_hardware cursor.old) result cursor.new }
    ensures stands { StandsAt result cursor.new }
{
    expect(cursor, Kind::ToHw)?;
    Ok(Direction::ToHardware)
}

/// `from_hw`
#[tactic(auto, unfolding(crate::specs::DesignReading::from_hardware))]
fn from_hardware(cursor: &mut Cursor<'_>) -> Result<Direction, TokenStop>
    ensures reads { AnswersAt (spec.from_hardware cursor.old) result cursor.new }
    ensures stands { StandsAt result cursor.new }
{
    expect(cursor, Kind::FromHw)?;
    Ok(Direction::FromHardware)
}

/// Which way a channel goes.
#[tactic(auto, unfolding(crate::specs::DesignReading::direction))]
fn direction(cursor: &mut Cursor<'_>) -> Result<Direction, TokenStop>
    ensures reads { AnswersAt (spec.direction cursor.old) result cursor.new }
    ensures stands { StandsAt result cursor.new }
{
    if is_same(kind_of(cursor.peek()), Kind::ToHw) {
        to_hardware(cursor)
    } else {
        from_hardware(cursor)
    }
}

/// A channel of a bundle.
#[tactic(auto, unfolding(crate::specs::DesignReading::member))]
fn member(cursor: &mut Cursor<'_>, alloc: Global) -> Result<Member, TokenStop>
    ensures reads { AnswersAt (spec.member (type_at OPEN_TYPES) cursor.old) result cursor.new }
    ensures stands { StandsAt result cursor.new }
{
    let name = next_name(cursor, alloc)?;
    expect(cursor, Kind::Colon)?;
    let direction = direction(cursor)?;
    let (ty, _) = next_type(cursor, alloc)?;
    expect(cursor, Kind::Semicolon)?;
    Ok(Member {
        name,
        direction,
        ty,
    })
}

/// The list of the channels after the first one.
struct OtherMembers;

impl Listed for OtherMembers {
    ghost use Rattle.std.specs.Prelude.{refl};
    ghost use Rattle.design_reader.specs.DesignSteps.{member_shorter};

    type Item = Member;

    ghost reader = { spec.member (type_at OPEN_TYPES) };

    ghost starts = { names };

    fn begins(kind: Kind) -> bool {
        is_name(kind)
    }

    fn next(cursor: &mut Cursor<'_>, alloc: Global) -> Result<Member, TokenStop> {
        member(cursor, alloc)
    }

    ghost shorter = { member_shorter OPEN_EXPRESSIONS };

    ghost ends = { refl };
}

/// A bundle: its name, and in braces its channels.
#[tactic(auto, unfolding(crate::specs::DesignReading::bundle))]
pub fn next_bundle(cursor: &mut Cursor<'_>, alloc: Global) -> Result<Bundle, TokenStop>
    ensures reads { AnswersAt (spec.bundle (type_at OPEN_TYPES) cursor.old) result cursor.new }
    ensures stands { StandsAt result cursor.new }
{
    expect(cursor, Kind::Bundle)?;
    let name = next_name(cursor, alloc)?;
    expect(cursor, Kind::OpenBrace)?;
    let first = member(cursor, alloc)?;
    let members = items_after::<OtherMembers>(cursor, alloc, first)?;
    expect(cursor, Kind::CloseBrace)?;
    Ok(Bundle { name, members })
}
