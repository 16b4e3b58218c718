//! The readers of statements.
ghost use Rattle.std.specs.Prelude.{◌≡◌, [], ◌∷◌};
ghost use Rattle.ll1_grammar.specs.Kinds.{among};
ghost use Rattle.design_grammar.specs.Kinds as kinds;
ghost use Rattle.design_grammar.specs.declared.kind.Kind.TheVariants.{Comma};
ghost use Rattle.design_grammar.specs.Grammar.{AnswersAt, StandsAt};
ghost use Rattle.design_grammar.specs.Lists.{after_comma};
ghost use Rattle.channel_types.specs.declared.limits.TheConstants.{OPEN_TYPES};
ghost use Rattle.design_expressions.specs.declared.limits.TheConstants.{OPEN_EXPRESSIONS};
ghost use Rattle.design_types.specs.TypeReading.{type_at};
ghost use Rattle.design_expressions.specs.ExpressionReading.{expression_at};
ghost use Rattle.design_statements.specs.StatementReading as spec;

use crate::operations::next_operation;
use crate::references::{next_id, next_reference};
use design_expressions::next_name;
use design_grammar::kind::is_name;
use design_grammar::reading::{begin, expect};
use design_grammar::{Kind, Listed, TokenStop, is_same, items_after, kind_of};
use design_lex::Cursor;
use design_tree::{Binding, Name, Statement};
use esi_base::List;
use std::alloc::Global;

/// `request`: requests the channels of a service's port.
#[tactic(auto, unfolding(crate::specs::StatementReading::request))]
fn request(cursor: &mut Cursor<'_>, alloc: Global) -> Result<Statement, TokenStop>
    ensures reads { AnswersAt (spec.request cursor.old) result cursor.new }
    ensures stands { StandsAt result cursor.new }
{
    let at = begin(cursor, Kind::Request)?;
    let service = next_name(cursor, alloc)?;
    expect(cursor, Kind::Dot)?;
    let port = next_name(cursor, alloc)?;
    expect(cursor, Kind::As)?;
    let id = next_id(cursor, alloc)?;
    expect(cursor, Kind::Semicolon)?;
    Ok(Statement::Request {
        at,
        service,
        port,
        id,
    })
}

/// What an instance's port is bound to.
#[tactic(auto, unfolding(crate::specs::StatementReading::binding))]
fn next_binding(cursor: &mut Cursor<'_>, alloc: Global) -> Result<Binding, TokenStop>
    ensures reads { AnswersAt (spec.binding cursor.old) result cursor.new }
    ensures stands { StandsAt result cursor.new }
{
    let port = next_name(cursor, alloc)?;
    expect(cursor, Kind::Colon)?;
    let source = next_reference(cursor, alloc)?;
    Ok(Binding { port, source })
}

/// The list of the bindings after the first one, each after a comma.
struct OtherBindings;

impl Listed for OtherBindings {
    ghost use Rattle.std.specs.Prelude.{refl};
    ghost use Rattle.design_statements.specs.StatementSteps.{other_binding_shorter};

    type Item = Binding;

    ghost reader = { after_comma spec.binding };

    ghost starts = { kinds.code Comma ∷ [] };

    fn begins(kind: Kind) -> bool {
        matches!(kind, Kind::Comma)
    }

    fn next(cursor: &mut Cursor<'_>, alloc: Global) -> Result<Binding, TokenStop> {
        expect(cursor, Kind::Comma)?;
        next_binding(cursor, alloc)
    }

    ghost shorter = { other_binding_shorter };

    ghost ends = { refl };
}

/// One binding or more, with commas between them.
#[tactic(auto, unfolding(crate::specs::StatementReading::listed_bindings))]
fn listed_bindings(cursor: &mut Cursor<'_>, alloc: Global) -> Result<List<Binding>, TokenStop>
    ensures reads { AnswersAt (spec.listed_bindings cursor.old) result cursor.new }
    ensures stands { StandsAt result cursor.new }
{
    let first = next_binding(cursor, alloc)?;
    items_after::<OtherBindings>(cursor, alloc, first)
}

/// The bindings of an instance, maybe none.
#[tactic(auto, unfolding(crate::specs::StatementReading::bindings))]
fn bindings(cursor: &mut Cursor<'_>, alloc: Global) -> Result<List<Binding>, TokenStop>
    ensures reads { AnswersAt (spec.bindings cursor.old) result cursor.new }
    ensures stands { StandsAt result cursor.new }
{
    if is_name(kind_of(cursor.peek())) {
        listed_bindings(cursor, alloc)
    } else {
        Ok(List::new(alloc))
    }
}

/// `inst`: an instance of a module.
#[tactic(auto, unfolding(crate::specs::StatementReading::instance))]
fn instance(cursor: &mut Cursor<'_>, alloc: Global) -> Result<Statement, TokenStop>
    ensures reads { AnswersAt (spec.instance cursor.old) result cursor.new }
    ensures stands { StandsAt result cursor.new }
{
    let at = begin(cursor, Kind::Inst)?;
    let id = next_id(cursor, alloc)?;
    expect(cursor, Kind::Equals)?;
    let module = next_name(cursor, alloc)?;
    expect(cursor, Kind::OpenParenthesis)?;
    let bindings = bindings(cursor, alloc)?;
    expect(cursor, Kind::CloseParenthesis)?;
    expect(cursor, Kind::Semicolon)?;
    Ok(Statement::Instance {
        at,
        id,
        module,
        bindings,
    })
}

/// The list of the names of channels after the first one, each after a comma.
struct OtherNames;

impl Listed for OtherNames {
    ghost use Rattle.std.specs.Prelude.{refl};
    ghost use Rattle.design_expressions.specs.ExpressionReading.{next_name};
    ghost use Rattle.design_statements.specs.StatementSteps.{other_name_shorter};

    type Item = Name;

    ghost reader = { after_comma next_name };

    ghost starts = { kinds.code Comma ∷ [] };

    fn begins(kind: Kind) -> bool {
        matches!(kind, Kind::Comma)
    }

    fn next(cursor: &mut Cursor<'_>, alloc: Global) -> Result<Name, TokenStop> {
        expect(cursor, Kind::Comma)?;
        next_name(cursor, alloc)
    }

    ghost shorter = { other_name_shorter };

    ghost ends = { refl };
}

/// `chan`: names for the channels that an operation makes.
#[tactic(auto, unfolding(crate::specs::StatementReading::channels))]
fn channels(cursor: &mut Cursor<'_>, alloc: Global) -> Result<Statement, TokenStop>
    ensures reads { AnswersAt (spec.channels (type_at OPEN_TYPES) (expression_at OPEN_EXPRESSIONS) cursor.old) result cursor.new }
    ensures stands { StandsAt result cursor.new }
{
    let at = begin(cursor, Kind::Chan)?;
    let first = next_name(cursor, alloc)?;
    let names = items_after::<OtherNames>(cursor, alloc, first)?;
    expect(cursor, Kind::Equals)?;
    let operation = next_operation(cursor, alloc)?;
    expect(cursor, Kind::Semicolon)?;
    Ok(Statement::Channels {
        at,
        names,
        operation,
    })
}

/// `drive`: what an output is driven by.
#[tactic(auto, unfolding(crate::specs::StatementReading::drive))]
fn drive(cursor: &mut Cursor<'_>, alloc: Global) -> Result<Statement, TokenStop>
    ensures reads { AnswersAt (spec.drive cursor.old) result cursor.new }
    ensures stands { StandsAt result cursor.new }
{
    let at = begin(cursor, Kind::Drive)?;
    let sink = next_reference(cursor, alloc)?;
    expect(cursor, Kind::Equals)?;
    let source = next_reference(cursor, alloc)?;
    expect(cursor, Kind::Semicolon)?;
    Ok(Statement::Drive { at, sink, source })
}

/// Whether a statement may begin with a token of this kind.
pub fn begins_statement(kind: Kind) -> bool
    ensures { result ≡ among spec.statement_starts (kinds.code kind) }
{
    matches!(kind, Kind::Request | Kind::Inst | Kind::Chan | Kind::Drive)
}

/// Reads the statement that comes next, and goes past it. It is refused at the first token with which no
/// statement goes on, or at which a limit is broken, as `next_expression` reports it, and stops otherwise
/// only when it runs out of memory.
#[tactic(auto, unfolding(crate::specs::StatementReading::statement))]
pub fn next_statement(cursor: &mut Cursor<'_>, alloc: Global) -> Result<Statement, TokenStop>
    ensures reads { AnswersAt (spec.statement_at OPEN_TYPES OPEN_EXPRESSIONS cursor.old) result cursor.new }
    ensures stands { StandsAt result cursor.new }
{
    let kind = kind_of(cursor.peek());
    if is_same(kind, Kind::Request) {
        request(cursor, alloc)
    } else if is_same(kind, Kind::Inst) {
        instance(cursor, alloc)
    } else if is_same(kind, Kind::Chan) {
        channels(cursor, alloc)
    } else {
        drive(cursor, alloc)
    }
}
