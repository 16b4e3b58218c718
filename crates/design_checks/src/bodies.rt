//! The rules on the order of elements, on signalling and on types, over the bodies of a design.
ghost use Rattle.std.specs.Prelude.{◌≡◌, IfOk, map};
ghost use Rattle.channel_typing.specs.Misfits.{misfits, body_misfits};
ghost use Rattle.body_order.specs.Signals.{first_of};
ghost use Rattle.design_scopes.specs.Resolving.{scope_in};
ghost use Rattle.design_checks.specs.BodyBreaks.{sooner, or_first, both, AreBreaksOf, AreBreaksOfBody};

use body_order::Elements;
use channel_typing::type_body;
use design_scopes::body::Body;
use design_scopes::body_names::BodyNames;
use design_scopes::declared::Declared;
use design_scopes::scope_names::ScopeNames;
use esi_base::{NoMemory, Stop};
use name_tables::earlier;
use std::alloc::Global;

/// What is broken in some bodies.
#[derive(Clone, Copy, Debug)]
pub(crate) struct BodyBreaks {
    /// The first place of an element that depends on itself.
    pub cycle: Option<usize>,
    /// The first place of a reference to a channel of other signalling, in the order of bodies, and in each
    /// in the order of its elements.
    pub signal: Option<usize>,
    /// The first place at which a type does not fit, in the same order.
    pub misfit: Option<usize>,
}

impl BodyBreaks {
    /// With what is broken in a body after those.
    fn and(self, other: BodyBreaks) -> BodyBreaks
        ensures { result ≡ both self other }
    {
        BodyBreaks {
            cycle: sooner(self.cycle, other.cycle),
            signal: or_first(self.signal, other.signal),
            misfit: or_first(self.misfit, other.misfit),
        }
    }
}

/// What is broken in the bodies. It takes time in n log n, but for elements that depend on themselves.
pub(crate) fn body_breaks<'a>(
    alloc: Global,
    declared: &Declared<'a>,
    bodies: &[Body<'a>],
) -> Result<BodyBreaks, NoMemory>
    ensures { IfOk result (AreBreaksOf misfits (map (scope_in declared.now) bodies.now)) }
{
    let mut breaks = BodyBreaks {
        cycle: None,
        signal: None,
        misfit: None,
    };
    for body in bodies {
        breaks = breaks.and(breaks_of_body(alloc, declared, body)?);
    }
    Ok(breaks)
}

/// What is broken in a body.
fn breaks_of_body<'a>(
    alloc: Global,
    declared: &Declared<'a>,
    body: &Body<'a>,
) -> Result<BodyBreaks, NoMemory>
    ensures { IfOk result (AreBreaksOfBody (scope_in declared.now body.now)) }
{
    let names = BodyNames::of(alloc, body)?;
    let scope = ScopeNames {
        declared,
        body,
        names: &names,
    };
    let elements = Elements::of(alloc, body.statements.as_slice())?;
    let order = elements.order(alloc)?;
    let cycle = elements.first_cycle(alloc)?;
    let signal = elements.first_wrong_signal(order.as_slice(), body.statements.as_slice());
    let misfit = first_misfit(alloc, &scope, &elements, order.as_slice())?;
    Ok(BodyBreaks {
        cycle,
        signal,
        misfit,
    })
}

/// The first place of a body at which a type does not fit.
#[tactic(auto, using(crate::proofs::BodyLaws::first_refused, crate::proofs::BodyLaws::none_refused))]
fn first_misfit<'v, 'a>(
    alloc: Global,
    scope: &ScopeNames<'v, 'a>,
    elements: &Elements<'a>,
    order: &[usize],
) -> Result<Option<usize>, NoMemory>
    ensures { IfOk result (λ first. first ≡ first_of (body_misfits scope.now elements.now order.now)) }
{
    match type_body(alloc, scope, elements, order) {
        Ok(_elements) => Ok(None),
        Err(Stop::Refused(at)) => Ok(Some(at)),
        Err(Stop::NoMemory) => Err(NoMemory),
    }
}

/// The earlier of two places, of those that there are.
fn sooner(first: Option<usize>, other: Option<usize>) -> Option<usize>
    ensures { result ≡ sooner first other }
{
    match other {
        None => first,
        Some(at) => earlier(first, at),
    }
}

/// The first place if there is one, or else the other.
fn or_first(first: Option<usize>, other: Option<usize>) -> Option<usize>
    ensures { result ≡ or_first first other }
{
    match first {
        None => other,
        Some(at) => Some(at),
    }
}
