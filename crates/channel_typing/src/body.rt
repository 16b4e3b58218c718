//! A body, typed along an order of its elements.
ghost use Rattle.std.specs.Prelude.{[]};
ghost use Rattle.esi_base.specs.Answers.{Reads, ReadsAs};
ghost use Rattle.channel_typing.specs.Walk.{first_or, element_step, typed_along, body_typed};
ghost use Rattle.channel_typing.specs.Misfits.{body_misfits, elements_typed};

use crate::known_types::KnownTypes;
use crate::statements::{element_made, first_drive_misfit};
use crate::typed_element::TypedElement;
use body_order::Elements;
use design_scopes::scope_names::ScopeNames;
use esi_base::{List, Stop};
use std::alloc::Global;

/// What stands for each element of a body, along an order of its elements, as `Elements::order` gives it:
/// or the first place at which a type does not fit, over the elements in this order, then over the drives in
/// the order of the text. It takes time in n log n beside the types that joins make.
pub fn type_body<'v, 'a>(
    alloc: Global,
    scope: &ScopeNames<'v, 'a>,
    elements: &Elements<'a>,
    order: &[usize],
) -> Result<List<TypedElement>, Stop<usize>>
    ensures { Reads (first_or (body_misfits scope.now elements.now order.now) (elements_typed scope.now elements.now order.now)) result }
{
    typed_body(alloc, scope, elements, order)
}

/// The same, step by step.
#[tactic(auto, using(crate::proofs::Firsts::first_refused, crate::proofs::Firsts::none_refused))]
fn typed_body<'v, 'a>(
    alloc: Global,
    scope: &ScopeNames<'v, 'a>,
    elements: &Elements<'a>,
    order: &[usize],
) -> Result<List<TypedElement>, Stop<usize>>
    ensures { Reads (body_typed scope.now elements.now order.now) result }
{
    let mut known = KnownTypes::none(alloc, elements.statements().len())?;
    match type_elements(alloc, scope, elements, &mut known, order) {
        Ok(typed) => {
            match first_drive_misfit(scope, elements, &known, scope.body.statements.as_slice()) {
                Some(at) => Err(Stop::Refused(at)),
                None => Ok(typed),
            }
        }
        Err(stop) => Err(stop),
    }
}

/// The elements in an order.
fn type_elements<'v, 'a>(
    alloc: Global,
    scope: &ScopeNames<'v, 'a>,
    elements: &Elements<'a>,
    known: &mut KnownTypes<'a>,
    order: &[usize],
) -> Result<List<TypedElement>, Stop<usize>>
    ensures { ReadsAs (λ typed. typed) (typed_along scope.now elements.now known.old [] order.now) result known.new }
{
    let mut typed = List::new(alloc);
    for number in order {
        match type_element(alloc, scope, elements, known, *number) {
            Ok(element) => typed.add(element)?,
            Err(stop) => return Err(stop),
        }
    }
    Ok(typed)
}

/// The element of a number, whose type becomes known.
fn type_element<'v, 'a>(
    alloc: Global,
    scope: &ScopeNames<'v, 'a>,
    elements: &Elements<'a>,
    known: &mut KnownTypes<'a>,
    number: usize,
) -> Result<TypedElement, Stop<usize>>
    ensures { ReadsAs (λ element. element) (element_step scope.now elements.now known.old number) result known.new }
{
    match element_made(alloc, scope, elements, known, number) {
        Ok(made) => {
            known.learn(number, made.ty)?;
            Ok(made.element)
        }
        Err(stop) => Err(stop),
    }
}
