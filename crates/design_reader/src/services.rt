//! The readers of services.
ghost use Rattle.std.specs.Prelude.{[], ◌∷◌};
ghost use Rattle.design_grammar.specs.declared.kind.Kind.TheVariants.{Port};
ghost use Rattle.design_grammar.specs.Kinds as kinds;
ghost use Rattle.design_grammar.specs.Grammar.{AnswersAt, StandsAt};
ghost use Rattle.design_expressions.specs.declared.limits.TheConstants.{OPEN_EXPRESSIONS};
ghost use Rattle.design_reader.specs.DesignReading as spec;

use design_expressions::next_name;
use design_grammar::reading::expect;
use design_grammar::{Kind, Listed, TokenStop, items_after};
use design_lex::Cursor;
use design_tree::{Service, ServicePort};
use std::alloc::Global;

/// A port of a service.
#[tactic(auto, unfolding(crate::specs::DesignReading::service_port))]
fn service_port(cursor: &mut Cursor<'_>, alloc: Global) -> Result<ServicePort, TokenStop>
    ensures reads { AnswersAt (spec.service_port cursor.old) result cursor.new }
    ensures stands { StandsAt result cursor.new }
{
    expect(cursor, Kind::Port)?;
    let name = next_name(cursor, alloc)?;
    expect(cursor, Kind::Colon)?;
    let bundle = next_name(cursor, alloc)?;
    expect(cursor, Kind::Semicolon)?;
    Ok(ServicePort { name, bundle })
}

/// The list of the ports after the first one.
struct OtherPorts;

impl Listed for OtherPorts {
    ghost use Rattle.std.specs.Prelude.{refl};
    ghost use Rattle.design_reader.specs.DesignSteps.{service_port_shorter};

    type Item = ServicePort;

    ghost reader = { spec.service_port };

    ghost starts = { kinds.code Port ∷ [] };

    fn begins(kind: Kind) -> bool {
        matches!(kind, Kind::Port)
    }

    fn next(cursor: &mut Cursor<'_>, alloc: Global) -> Result<ServicePort, TokenStop> {
        service_port(cursor, alloc)
    }

    ghost shorter = { service_port_shorter OPEN_EXPRESSIONS };

    ghost ends = { refl };
}

/// A service: its name, and in braces its ports.
#[tactic(auto, unfolding(crate::specs::DesignReading::service))]
pub fn next_service(cursor: &mut Cursor<'_>, alloc: Global) -> Result<Service, TokenStop>
    ensures reads { AnswersAt (spec.service cursor.old) result cursor.new }
    ensures stands { StandsAt result cursor.new }
{
    expect(cursor, Kind::Service)?;
    let name = next_name(cursor, alloc)?;
    expect(cursor, Kind::OpenBrace)?;
    let first = service_port(cursor, alloc)?;
    let ports = items_after::<OtherPorts>(cursor, alloc, first)?;
    expect(cursor, Kind::CloseBrace)?;
    Ok(Service { name, ports })
}
