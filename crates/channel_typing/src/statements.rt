//! What the statements of a body make, and the ports and sinks that do not fit.
ghost use Rattle.std.specs.Prelude.{◌≡◌, ◌∷◌, [], flat_map, option_copied, option_map, slice_get};
ghost use Rattle.esi_base.specs.Answers.{AnswersAs};
ghost use Rattle.check_rules.specs.References.{reference_place};
ghost use Rattle.body_order.specs.Makers.{referred};
ghost use Rattle.body_order.specs.Signals.{first_of, or_else};
ghost use Rattle.channel_typing.specs.DeclaredTypes.{port_type};
ghost use Rattle.channel_typing.specs.Typing.{type_at, unless_same, bound_misfits};
ghost use Rattle.channel_typing.specs.Misfits.{drive_misfits};
ghost use Rattle.channel_typing.specs.Walk.{statement_typed, number_typed};
ghost use Rattle.channel_typing.specs.Views.{source_in, made_in};

use crate::declared_types::port_type;
use crate::known_types::KnownTypes;
use crate::made_element::{MadeElement, NewType};
use crate::operations::{operation_made, unknown_made};
use crate::source_type::SourceType;
use crate::sources::type_of;
use crate::typed_element::TypedElement;
use body_order::Elements;
use channel_types::EsiType;
use check_rules::keys::reference_mark;
use design_scopes::modules::ModuleNames;
use design_scopes::scope_names::ScopeNames;
use design_tree::{Binding, Name, Reference, Statement};
use esi_base::Stop;
use expression_types::ValueType;
use std::alloc::Global;

/// What the element of a number makes.
pub(crate) fn element_made<'v, 'a>(
    alloc: Global,
    scope: &ScopeNames<'v, 'a>,
    elements: &Elements<'a>,
    known: &KnownTypes<'a>,
    number: usize,
) -> Result<MadeElement<'a>, Stop<usize>>
    ensures { AnswersAs (made_in known.now) (number_typed scope.now elements.now known.now (slice_get elements.now number)) result }
{
    match elements.statements().get(number) {
        None => Ok(unknown_made()),
        Some(statement) => statement_made(alloc, scope, elements, known, statement),
    }
}

#[tactic(auto, using(crate::proofs::Firsts::first_refused, crate::proofs::Firsts::none_refused))]
fn statement_made<'v, 'a>(
    alloc: Global,
    scope: &ScopeNames<'v, 'a>,
    elements: &Elements<'a>,
    known: &KnownTypes<'a>,
    statement: &'a Statement,
) -> Result<MadeElement<'a>, Stop<usize>>
    ensures { AnswersAs (made_in known.now) (statement_typed scope.now (type_at scope.now elements.now known.now) statement.now) result }
{
    match statement {
        Statement::Request { .. } | Statement::Drive { .. } => Ok(unknown_made()),
        Statement::Instance {
            module,
            bindings,
            ..
        } => match first_bound_misfit(scope, elements, known, module, bindings.as_slice()) {
            Some(at) => Err(Stop::Refused(at)),
            None => Ok(MadeElement {
                ty: NewType::Unknown,
                element: TypedElement::Instance,
            }),
        },
        Statement::Channels {
            names,
            operation,
            ..
        } => operation_made(alloc, scope, elements, known, names.len(), operation),
    }
}

/// The first reference to which a port of an instance is bound, and which has another type.
#[tactic(auto, using(crate::proofs::Firsts::first_more, crate::proofs::Firsts::first_alone))]
fn first_bound_misfit<'v, 'a>(
    scope: &ScopeNames<'v, 'a>,
    elements: &Elements<'a>,
    known: &KnownTypes<'a>,
    module: &'a Name,
    bindings: &'a [Binding],
) -> Option<usize>
    ensures { result ≡ first_of (flat_map (bound_misfits scope.now (type_at scope.now elements.now known.now) module.now) bindings.now) }
{
    let mut first = None;
    for binding in bindings {
        first = bound_misfit(scope, elements, known, first, module, binding);
    }
    first
}

fn bound_misfit<'v, 'a>(
    scope: &ScopeNames<'v, 'a>,
    elements: &Elements<'a>,
    known: &KnownTypes<'a>,
    first: Option<usize>,
    module: &'a Name,
    binding: &'a Binding,
) -> Option<usize>
    ensures { result ≡ or_else first (first_of (bound_misfits scope.now (type_at scope.now elements.now known.now) module.now binding.now)) }
{
    match first {
        Some(at) => Some(at),
        None => misfit_unless_same(
            &binding.source,
            given(port_type(&binding.port, scope.find_module(module))),
            type_of(scope, elements, known, &binding.source),
        ),
    }
}

/// A type that stands in the text.
fn given<'b, 'a>(ty: Option<&'a EsiType>) -> Option<SourceType<'b, 'a>>
    ensures { option_map source_in result ≡ option_copied ty.entry }
{
    match ty {
        Some(found) => Some(SourceType::Value(ValueType::Given(found))),
        None => None,
    }
}

/// The place of a reference, where its type is not the one that is asked.
fn misfit_unless_same<'b, 'a>(
    reference: &Reference,
    asked: Option<SourceType<'b, 'a>>,
    ty: Option<SourceType<'b, 'a>>,
) -> Option<usize>
    ensures { result ≡ first_of (unless_same (reference_place reference.now) (option_map source_in asked.entry) (option_map source_in ty.entry)) }
{
    match asked {
        None => None,
        Some(wanted) => match ty {
            None => None,
            Some(found) => {
                if found.is_same(&wanted) {
                    None
                } else {
                    Some(reference_mark(reference).at)
                }
            }
        },
    }
}

/// The first second reference of a `drive` whose types are not the same.
#[tactic(auto, using(crate::proofs::Firsts::first_more, crate::proofs::Firsts::first_alone))]
pub(crate) fn first_drive_misfit<'v, 'a>(
    scope: &ScopeNames<'v, 'a>,
    elements: &Elements<'a>,
    known: &KnownTypes<'a>,
    statements: &[&'a Statement],
) -> Option<usize>
    ensures { result ≡ first_of (drive_misfits (type_at scope.now elements.now known.now) (referred statements.now)) }
{
    let mut first = None;
    for statement in statements {
        first = drive_misfit(scope, elements, known, first, statement);
    }
    first
}

#[tactic(auto, using(crate::proofs::Firsts::first_more, crate::proofs::Firsts::first_alone))]
fn drive_misfit<'v, 'a>(
    scope: &ScopeNames<'v, 'a>,
    elements: &Elements<'a>,
    known: &KnownTypes<'a>,
    first: Option<usize>,
    statement: &'a Statement,
) -> Option<usize>
    ensures { result ≡ or_else first (first_of (drive_misfits (type_at scope.now elements.now known.now) (statement.now ∷ []))) }
{
    match statement {
        Statement::Request { .. } | Statement::Instance { .. } | Statement::Channels { .. } =>
            first,
        Statement::Drive { sink, source, .. } => match first {
            Some(at) => Some(at),
            None => misfit_unless_same(
                source,
                type_of(scope, elements, known, sink),
                type_of(scope, elements, known, source),
            ),
        },
    }
}
