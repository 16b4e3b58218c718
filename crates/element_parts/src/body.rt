//! What stands for the elements of one body.
ghost use Rattle.std.specs.Prelude.{◌≡◌, OnOk};
ghost use Rattle.esi_base.specs.Answers.{AnswersAs};
ghost use Rattle.element_order.specs.Orders.{ordered};
ghost use Rattle.check_rules.specs.Dependencies.{elements_of};
ghost use Rattle.body_order.specs.Makers.{first_needs};
ghost use Rattle.design_scopes.specs.Resolving.{scope_in};
ghost use Rattle.element_parts.specs.Listing.{with_typed};
ghost use Rattle.element_parts.specs.Walk.{elements_added, body_added};

use crate::design_parts::DesignParts;
use crate::numbering::add_elements;
use body_order::Elements;
use channel_typing::{TypedElement, type_body};
use design_scopes::body::Body;
use design_scopes::body_names::BodyNames;
use design_scopes::declared::Declared;
use design_scopes::scope_names::ScopeNames;
use esi_base::{List, NoMemory, Stop};
use std::alloc::Global;

/// Adds what stands for the elements of a body; it is refused at the first place of the body at which a type
/// does not fit.
pub(crate) fn add_body<'a>(
    alloc: Global,
    declared: &Declared<'a>,
    body: &Body<'a>,
    found: &mut DesignParts,
) -> Result<(), Stop<usize>>
    ensures { AnswersAs (λ _. found.new) (body_added found.old (scope_in declared.now body.now)) result }
{
    let names = BodyNames::of(alloc, body)?;
    let scope = ScopeNames {
        declared,
        body,
        names: &names,
    };
    let elements = Elements::of(alloc, body.statements.as_slice())?;
    add_named(alloc, &scope, &elements, found)
}

/// The same, of the body whose elements are these.
fn add_named<'v, 'a>(
    alloc: Global,
    scope: &ScopeNames<'v, 'a>,
    elements: &Elements<'a>,
    found: &mut DesignParts,
) -> Result<(), Stop<usize>>
    requires { elements.now ≡ elements_of scope.now.statements }
    ensures { AnswersAs (λ _. found.new) (body_added found.old scope.now) result }
{
    add_in_scope(alloc, scope, elements, found)
}

/// The same, with all that can be named in the body.
#[tactic(auto, using(crate::proofs::Turns::typed_fits, crate::proofs::Turns::typed_stops))]
fn add_in_scope<'v, 'a>(
    alloc: Global,
    scope: &ScopeNames<'v, 'a>,
    elements: &Elements<'a>,
    found: &mut DesignParts,
) -> Result<(), Stop<usize>>
    ensures { AnswersAs (λ _. found.new) (elements_added found.old scope.now elements.now (ordered (first_needs elements.now))) result }
{
    let order = elements.order(alloc)?;
    match type_body(alloc, scope, elements, order.as_slice()) {
        Ok(typed) => {
            add_typed(alloc, order.as_slice(), typed, found)?;
            Ok(())
        }
        Err(stop) => Err(stop),
    }
}

/// Adds what stands for elements that were typed along an order.
fn add_typed(
    alloc: Global,
    order: &[usize],
    typed: List<TypedElement>,
    found: &mut DesignParts,
) -> Result<(), NoMemory>
    ensures { OnOk result (found.new ≡ with_typed found.old order.now typed) }
{
    let mut elements = List::new(alloc);
    add_elements(&mut found.parts, &mut elements, order, typed)?;
    found.ordered.add(elements)
}
