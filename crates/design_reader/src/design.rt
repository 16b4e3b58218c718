//! The readers of the top, of a pipe, and of a whole design.
ghost use Rattle.design_grammar.specs.Grammar.{AnswersAt, StandsAt};
ghost use Rattle.design_types.specs.TypeReading.{type_at};
ghost use Rattle.design_expressions.specs.declared.limits.TheConstants.{OPEN_EXPRESSIONS};
ghost use Rattle.channel_types.specs.declared.limits.TheConstants.{OPEN_TYPES};
ghost use Rattle.design_statements.specs.StatementReading.{statement_at};
ghost use Rattle.design_reader.specs.DesignReading as spec;

use crate::bundles::next_bundle;
use crate::modules::next_module;
use crate::services::next_service;
use design_expressions::{next_name, next_number};
use design_grammar::reading::expect;
use design_grammar::{Kind, Listed, TokenStop, is_same, kind_of, next_items};
use design_lex::Cursor;
use design_statements::{begins_statement, next_statement};
use design_tree::{Declaration, DesignTree, Pipe, Top, TopItem};
use design_types::next_type;
use std::alloc::Global;

/// A module, as a declaration.
#[tactic(auto, unfolding(crate::specs::DesignReading::module_declaration))]
fn module_declaration(cursor: &mut Cursor<'_>, alloc: Global) -> Result<Declaration, TokenStop>
    ensures reads { AnswersAt (spec.module_declaration (type_at OPEN_TYPES) (statement_at OPEN_TYPES OPEN_EXPRESSIONS) cursor.old) result cursor.new }
    ensures stands { StandsAt result cursor.new }
{
    Ok(Declaration::Module(next_module(cursor, alloc)?))
}

/// A declaration: a bundle, a service or a module.
#[tactic(auto, unfolding(crate::specs::DesignReading::declaration))]
fn declaration(cursor: &mut Cursor<'_>, alloc: Global) -> Result<Declaration, TokenStop>
    ensures reads { AnswersAt (spec.declaration (type_at OPEN_TYPES) (statement_at OPEN_TYPES OPEN_EXPRESSIONS) cursor.old) result cursor.new }
    ensures stands { StandsAt result cursor.new }
{
    let kind = kind_of(cursor.peek());
    if is_same(kind, Kind::Bundle) {
        Ok(Declaration::Bundle(next_bundle(cursor, alloc)?))
    } else if is_same(kind, Kind::Service) {
        Ok(Declaration::Service(next_service(cursor, alloc)?))
    } else {
        module_declaration(cursor, alloc)
    }
}

/// The list of the declarations before the top.
struct Declarations;

impl Listed for Declarations {
    ghost use Rattle.std.specs.Prelude.{refl};
    ghost use Rattle.design_reader.specs.DesignSteps.{declaration_shorter};

    type Item = Declaration;

    ghost reader = { spec.declaration (type_at OPEN_TYPES) (statement_at OPEN_TYPES OPEN_EXPRESSIONS) };

    ghost starts = { spec.declaration_starts };

    fn begins(kind: Kind) -> bool {
        matches!(kind, Kind::Bundle | Kind::Service | Kind::Module)
    }

    fn next(cursor: &mut Cursor<'_>, alloc: Global) -> Result<Declaration, TokenStop> {
        declaration(cursor, alloc)
    }

    ghost shorter = { declaration_shorter OPEN_EXPRESSIONS };

    ghost ends = { refl };
}

/// `implement`: a service that the host implements.
#[tactic(auto, unfolding(crate::specs::DesignReading::implement))]
fn implement(cursor: &mut Cursor<'_>, alloc: Global) -> Result<TopItem, TokenStop>
    ensures reads { AnswersAt (spec.implement cursor.old) result cursor.new }
    ensures stands { StandsAt result cursor.new }
{
    expect(cursor, Kind::Implement)?;
    let service = next_name(cursor, alloc)?;
    expect(cursor, Kind::Semicolon)?;
    Ok(TopItem::Implement(service))
}

/// An item of the top's body.
#[tactic(auto, unfolding(crate::specs::DesignReading::top_item))]
fn top_item(cursor: &mut Cursor<'_>, alloc: Global) -> Result<TopItem, TokenStop>
    ensures reads { AnswersAt (spec.top_item (statement_at OPEN_TYPES OPEN_EXPRESSIONS) cursor.old) result cursor.new }
    ensures stands { StandsAt result cursor.new }
{
    if begins_statement(kind_of(cursor.peek())) {
        Ok(TopItem::Statement(next_statement(cursor, alloc)?))
    } else {
        implement(cursor, alloc)
    }
}

/// The list of the items of the top's body.
struct TopItems;

impl Listed for TopItems {
    ghost use Rattle.std.specs.Prelude.{refl};
    ghost use Rattle.design_reader.specs.DesignSteps.{top_item_shorter};

    type Item = TopItem;

    ghost reader = { spec.top_item (statement_at OPEN_TYPES OPEN_EXPRESSIONS) };

    ghost starts = { spec.top_item_starts };

    fn begins(kind: Kind) -> bool {
        begins_statement(kind) || is_same(kind, Kind::Implement)
    }

    fn next(cursor: &mut Cursor<'_>, alloc: Global) -> Result<TopItem, TokenStop> {
        top_item(cursor, alloc)
    }

    ghost shorter = { top_item_shorter OPEN_EXPRESSIONS };

    ghost ends = { refl };
}

/// The top: its name, and its body in braces.
#[tactic(auto, unfolding(crate::specs::DesignReading::top))]
fn top(cursor: &mut Cursor<'_>, alloc: Global) -> Result<Top, TokenStop>
    ensures reads { AnswersAt (spec.top (statement_at OPEN_TYPES OPEN_EXPRESSIONS) cursor.old) result cursor.new }
    ensures stands { StandsAt result cursor.new }
{
    expect(cursor, Kind::Top)?;
    let name = next_name(cursor, alloc)?;
    expect(cursor, Kind::OpenBrace)?;
    let body = next_items::<TopItems>(cursor, alloc)?;
    expect(cursor, Kind::CloseBrace)?;
    Ok(Top { name, body })
}

/// The declarations and the top.
#[tactic(auto, unfolding(crate::specs::DesignReading::declarations_and_top))]
fn declarations_and_top(cursor: &mut Cursor<'_>, alloc: Global) -> Result<DesignTree, TokenStop>
    ensures reads { AnswersAt (spec.declarations_and_top (type_at OPEN_TYPES) (statement_at OPEN_TYPES OPEN_EXPRESSIONS) cursor.old) result cursor.new }
    ensures stands { StandsAt result cursor.new }
{
    let declarations = next_items::<Declarations>(cursor, alloc)?;
    let top = top(cursor, alloc)?;
    Ok(DesignTree::Modules { declarations, top })
}

/// A pipe: its type, and how many stages it has.
#[tactic(auto, unfolding(crate::specs::DesignReading::pipe))]
fn pipe(cursor: &mut Cursor<'_>, alloc: Global) -> Result<Pipe, TokenStop>
    ensures reads { AnswersAt (spec.pipe (type_at OPEN_TYPES) cursor.old) result cursor.new }
    ensures stands { StandsAt result cursor.new }
{
    expect(cursor, Kind::Pipe)?;
    let (ty, _) = next_type(cursor, alloc)?;
    expect(cursor, Kind::Stages)?;
    let stages = next_number(cursor)?;
    expect(cursor, Kind::Semicolon)?;
    Ok(Pipe { ty, stages })
}

/// The tree of a design, after its version.
#[tactic(auto, unfolding(crate::specs::DesignReading::tree))]
fn tree(cursor: &mut Cursor<'_>, alloc: Global) -> Result<DesignTree, TokenStop>
    ensures reads { AnswersAt (spec.tree (type_at OPEN_TYPES) (statement_at OPEN_TYPES OPEN_EXPRESSIONS) cursor.old) result cursor.new }
    ensures stands { StandsAt result cursor.new }
{
    if is_same(kind_of(cursor.peek()), Kind::Pipe) {
        Ok(DesignTree::Pipe(pipe(cursor, alloc)?))
    } else {
        declarations_and_top(cursor, alloc)
    }
}

/// Reads the design that comes next, from its version on, and goes past it. It is refused at the first
/// token with which no design goes on, or at which a limit is broken, as `next_statement` reports it, and
/// stops otherwise only when it runs out of memory.
#[tactic(auto, unfolding(crate::specs::DesignReading::design))]
pub fn next_design(cursor: &mut Cursor<'_>, alloc: Global) -> Result<DesignTree, TokenStop>
    ensures reads { AnswersAt (spec.design_at OPEN_TYPES OPEN_EXPRESSIONS cursor.old) result cursor.new }
    ensures stands { StandsAt result cursor.new }
{
    expect(cursor, Kind::Esi)?;
    expect(cursor, Kind::One)?;
    expect(cursor, Kind::Semicolon)?;
    tree(cursor, alloc)
}
