//! The readers of modules.
ghost use Rattle.std.specs.Prelude.{◌≡◌, [], ◌∷◌};
ghost use Rattle.ll1_grammar.specs.Kinds.{among};
ghost use Rattle.design_grammar.specs.declared.kind.Kind.TheVariants.{Comma};
ghost use Rattle.design_grammar.specs.Kinds as kinds;
ghost use Rattle.design_grammar.specs.Grammar.{AnswersAt, StandsAt};
ghost use Rattle.design_grammar.specs.Lists.{after_comma};
ghost use Rattle.design_types.specs.TypeReading.{type_at};
ghost use Rattle.design_expressions.specs.declared.limits.TheConstants.{OPEN_EXPRESSIONS};
ghost use Rattle.channel_types.specs.declared.limits.TheConstants.{OPEN_TYPES};
ghost use Rattle.design_statements.specs.StatementReading.{statement_at, statement_starts};
ghost use Rattle.design_reader.specs.DesignReading as spec;

use design_expressions::next_name;
use design_grammar::reading::expect;
use design_grammar::{Kind, Listed, TokenStop, is_same, items_after, kind_of, next_items};
use design_lex::Cursor;
use design_statements::{begins_statement, next_statement};
use design_tree::{Module, ModulePort, PortDirection, Statement};
use design_types::next_type;
use esi_base::List;
use std::alloc::Global;

/// `in`
#[tactic(auto, unfolding(crate::specs::DesignReading::inwards))]
fn inwards(cursor: &mut Cursor<'_>) -> Result<PortDirection, TokenStop>
    ensures reads { AnswersAt (spec.inwards cursor.old) result cursor.new }
    ensures stands { StandsAt result cursor.new }
{
    expect(cursor, Kind::In)?;
    Ok(PortDirection::In)
}

/// `out`
#[tactic(auto, unfolding(crate::specs::DesignReading::outwards))]
fn outwards(cursor: &mut Cursor<'_>) -> Result<PortDirection, TokenStop>
    ensures reads { AnswersAt (spec.outwards cursor.old) result cursor.new }
    ensures stands { StandsAt result cursor.new }
{
    expect(cursor, Kind::Out)?;
    Ok(PortDirection::Out)
}

/// Which way a module's port goes.
#[tactic(auto, unfolding(crate::specs::DesignReading::port_direction))]
fn port_direction(cursor: &mut Cursor<'_>) -> Result<PortDirection, TokenStop>
    ensures reads { AnswersAt (spec.port_direction cursor.old) result cursor.new }
    ensures stands { StandsAt result cursor.new }
{
    if is_same(kind_of(cursor.peek()), Kind::In) {
        inwards(cursor)
    } else {
        outwards(cursor)
    }
}

/// A port of a module.
#[tactic(auto, unfolding(crate::specs::DesignReading::module_port))]
fn module_port(cursor: &mut Cursor<'_>, alloc: Global) -> Result<ModulePort, TokenStop>
    ensures reads { AnswersAt (spec.module_port (type_at OPEN_TYPES) cursor.old) result cursor.new }
    ensures stands { StandsAt result cursor.new }
{
    let direction = port_direction(cursor)?;
    let name = next_name(cursor, alloc)?;
    expect(cursor, Kind::Colon)?;
    let (ty, _) = next_type(cursor, alloc)?;
    Ok(ModulePort {
        direction,
        name,
        ty,
    })
}

/// The list of the ports after the first one, each after a comma.
struct OtherPorts;

impl Listed for OtherPorts {
    ghost use Rattle.std.specs.Prelude.{refl};
    ghost use Rattle.design_reader.specs.DesignSteps.{other_port_shorter};

    type Item = ModulePort;

    ghost reader = { after_comma (spec.module_port (type_at OPEN_TYPES)) };

    ghost starts = { kinds.code Comma ∷ [] };

    fn begins(kind: Kind) -> bool {
        matches!(kind, Kind::Comma)
    }

    fn next(cursor: &mut Cursor<'_>, alloc: Global) -> Result<ModulePort, TokenStop> {
        expect(cursor, Kind::Comma)?;
        module_port(cursor, alloc)
    }

    ghost shorter = { other_port_shorter OPEN_EXPRESSIONS };

    ghost ends = { refl };
}

/// One port or more, with commas between them.
#[tactic(auto, unfolding(crate::specs::DesignReading::listed_module_ports))]
fn listed_module_ports(
    cursor: &mut Cursor<'_>,
    alloc: Global,
) -> Result<List<ModulePort>, TokenStop>
    ensures reads { AnswersAt (spec.listed_module_ports (type_at OPEN_TYPES) cursor.old) result cursor.new }
    ensures stands { StandsAt result cursor.new }
{
    let first = module_port(cursor, alloc)?;
    items_after::<OtherPorts>(cursor, alloc, first)
}

/// Whether a module's port begins with a token of this kind.
fn begins_port(kind: Kind) -> bool
    ensures { result ≡ among spec.port_starts (kinds.code kind) }
{
    matches!(kind, Kind::In | Kind::Out)
}

/// The ports of a module, maybe none.
#[tactic(auto, unfolding(crate::specs::DesignReading::module_ports))]
fn module_ports(cursor: &mut Cursor<'_>, alloc: Global) -> Result<List<ModulePort>, TokenStop>
    ensures reads { AnswersAt (spec.module_ports (type_at OPEN_TYPES) cursor.old) result cursor.new }
    ensures stands { StandsAt result cursor.new }
{
    if begins_port(kind_of(cursor.peek())) {
        listed_module_ports(cursor, alloc)
    } else {
        Ok(List::new(alloc))
    }
}

/// The list of the statements of a body.
struct Statements;

impl Listed for Statements {
    ghost use Rattle.std.specs.Prelude.{refl};
    ghost use Rattle.design_reader.specs.DesignSteps.{statement_shorter};

    type Item = Statement;

    ghost reader = { statement_at OPEN_TYPES OPEN_EXPRESSIONS };

    ghost starts = { statement_starts };

    fn begins(kind: Kind) -> bool {
        begins_statement(kind)
    }

    fn next(cursor: &mut Cursor<'_>, alloc: Global) -> Result<Statement, TokenStop> {
        next_statement(cursor, alloc)
    }

    ghost shorter = { statement_shorter OPEN_EXPRESSIONS };

    ghost ends = { refl };
}

/// A module: its name, its ports in parentheses, and its body in braces.
#[tactic(auto, unfolding(crate::specs::DesignReading::module_definition))]
pub fn next_module(cursor: &mut Cursor<'_>, alloc: Global) -> Result<Module, TokenStop>
    ensures reads { AnswersAt (spec.module_definition (type_at OPEN_TYPES) (statement_at OPEN_TYPES OPEN_EXPRESSIONS) cursor.old) result cursor.new }
    ensures stands { StandsAt result cursor.new }
{
    expect(cursor, Kind::Module)?;
    let name = next_name(cursor, alloc)?;
    expect(cursor, Kind::OpenParenthesis)?;
    let ports = module_ports(cursor, alloc)?;
    expect(cursor, Kind::CloseParenthesis)?;
    expect(cursor, Kind::OpenBrace)?;
    let body = next_items::<Statements>(cursor, alloc)?;
    expect(cursor, Kind::CloseBrace)?;
    Ok(Module { name, ports, body })
}
