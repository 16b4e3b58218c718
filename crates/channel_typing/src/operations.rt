//! What the operations of a body make.
ghost use Rattle.std.specs.Prelude.{◌≡◌, Ok, option_map};
ghost use Rattle.esi_base.specs.Answers.{AnswersAs};
ghost use Rattle.expression_types.specs.Typing.{literal_word};
ghost use Rattle.expression_types.specs.Views.{type_in};
ghost use Rattle.expression_types.specs.Rows.{first_octet};
ghost use Rattle.channel_typing.specs.Typing.{Known, unknown, over, in_stages, as_part, width_in, count_in, map_over, scan_over, scan_from, joined, operation_made, type_at};
ghost use Rattle.channel_typing.specs.Views.{source_in, origin_in, made_in};
ghost use Rattle.netlist.specs.declared.part.Part.TheVariants as P;

use crate::expressions::{map_body, scan_typed};
use crate::joins::join_made;
use crate::known_types::KnownTypes;
use crate::limits::GREATEST_COUNT;
use crate::made_element::{MadeElement, NewType};
use crate::origin::Origin;
use crate::own_type::OwnType;
use crate::source_type::SourceType;
use crate::sources::{origin_of, type_of};
use crate::typed_element::TypedElement;
use body_order::Elements;
use channel_types::EsiType;
use design_scopes::scope_names::ScopeNames;
use design_tree::{Expression, Name, Operation, Reference};
use esi_base::{Stop, Word};
use expression_types::{ValueType, literal_word};
use netlist::Part;
use std::alloc::Global;

/// What an operation makes that makes so many channels.
pub(crate) fn operation_made<'v, 'a>(
    alloc: Global,
    scope: &ScopeNames<'v, 'a>,
    elements: &Elements<'a>,
    known: &KnownTypes<'a>,
    channels: usize,
    operation: &'a Operation,
) -> Result<MadeElement<'a>, Stop<usize>>
    ensures { AnswersAs (made_in known.now) (operation_made (type_at scope.now elements.now known.now) channels operation.now) result }
{
    match operation {
        Operation::Stage(source) => Ok(stages_made(known, origin_of(scope, elements, source), 1)),
        Operation::Buffer { stages, source } => Ok(stages_made(
            known,
            origin_of(scope, elements, source),
            capped_count(stages.value),
        )),
        Operation::Fifo { depth, source } => Ok(fifo_made(
            known,
            origin_of(scope, elements, source),
            capped_count(depth.value),
        )),
        Operation::AsFifo(source) => { Ok(as_fifo_made(known, origin_of(scope, elements, source))) }
        Operation::AsVr(source) => Ok(as_vr_made(known, origin_of(scope, elements, source))),
        Operation::Fork(source) => Ok(fork_made(
            known,
            origin_of(scope, elements, source),
            capped_count(channels as u128),
        )),
        Operation::Join { left, right } => join_of(alloc, scope, elements, known, left, right),
        Operation::Map {
            source,
            variable,
            body,
        } => map_of(alloc, scope, elements, known, source, variable, body),
        Operation::Scan {
            source,
            state,
            ty,
            initial,
            variable,
            body,
        } => scan_of(
            alloc,
            scope,
            elements,
            known,
            source,
            state,
            ty,
            initial.value,
            variable,
            body,
        ),
    }
}

/// An operation of which a source has no type.
pub(crate) fn unknown_made<'a>() -> MadeElement<'a>
    ensures { (known : Known) → made_in known result ≡ unknown }
{
    MadeElement {
        ty: NewType::Unknown,
        element: TypedElement::Unknown,
    }
}

/// A number of the text, where `GREATEST_COUNT` stands for all above it.
fn capped_count(count: u128) -> u32
    ensures { result ≡ count_in count }
{
    if count < GREATEST_COUNT as u128 {
        count as u32
    } else {
        GREATEST_COUNT
    }
}

/// Stages in a row.
fn stages_made<'a>(known: &KnownTypes<'a>, origin: Origin<'a>, count: u32) -> MadeElement<'a>
    ensures { Ok (made_in known.now result) ≡ over (origin_in known.now origin.entry) (λ a. Ok (in_stages count a)) }
{
    match known.find(origin) {
        None => unknown_made(),
        Some(ty) => MadeElement {
            ty: NewType::Passed(origin),
            element: TypedElement::Stages {
                count,
                width: ty.width(),
            },
        },
    }
}

/// A queue.
fn fifo_made<'a>(known: &KnownTypes<'a>, origin: Origin<'a>, depth: u32) -> MadeElement<'a>
    ensures { Ok (made_in known.now result) ≡ over (origin_in known.now origin.entry) (λ a. Ok (as_part (P.Fifo (width_in a) depth) a)) }
{
    match known.find(origin) {
        None => unknown_made(),
        Some(ty) => {
            let width = ty.width();
            MadeElement {
                ty: NewType::Passed(origin),
                element: TypedElement::Part {
                    part: Part::Fifo { width, depth },
                    width,
                },
            }
        }
    }
}

/// FIFO signalling from valid and ready.
fn as_fifo_made<'a>(known: &KnownTypes<'a>, origin: Origin<'a>) -> MadeElement<'a>
    ensures { Ok (made_in known.now result) ≡ over (origin_in known.now origin.entry) (λ a. Ok (as_part P.AsFifo a)) }
{
    match known.find(origin) {
        None => unknown_made(),
        Some(ty) => MadeElement {
            ty: NewType::Passed(origin),
            element: TypedElement::Part {
                part: Part::AsFifo,
                width: ty.width(),
            },
        },
    }
}

/// Valid and ready from FIFO signalling.
fn as_vr_made<'a>(known: &KnownTypes<'a>, origin: Origin<'a>) -> MadeElement<'a>
    ensures { Ok (made_in known.now result) ≡ over (origin_in known.now origin.entry) (λ a. Ok (as_part P.AsVr a)) }
{
    match known.find(origin) {
        None => unknown_made(),
        Some(ty) => MadeElement {
            ty: NewType::Passed(origin),
            element: TypedElement::Part {
                part: Part::AsVr,
                width: ty.width(),
            },
        },
    }
}

/// Copies of a channel.
fn fork_made<'a>(known: &KnownTypes<'a>, origin: Origin<'a>, branches: u32) -> MadeElement<'a>
    ensures { Ok (made_in known.now result) ≡ over (origin_in known.now origin.entry) (λ a. Ok (as_part (P.Fork branches) a)) }
{
    match known.find(origin) {
        None => unknown_made(),
        Some(ty) => MadeElement {
            ty: NewType::Passed(origin),
            element: TypedElement::Part {
                part: Part::Fork { branches },
                width: ty.width(),
            },
        },
    }
}

/// Two channels in step.
fn join_of<'v, 'a>(
    alloc: Global,
    scope: &ScopeNames<'v, 'a>,
    elements: &Elements<'a>,
    known: &KnownTypes<'a>,
    left: &'a Reference,
    right: &'a Reference,
) -> Result<MadeElement<'a>, Stop<usize>>
    ensures { AnswersAs (made_in known.now) (over (type_at scope.now elements.now known.now left.now) (λ a. over (type_at scope.now elements.now known.now right.now) (joined left.now a))) result }
{
    let Some(one) = type_of(scope, elements, known, left) else {
        return Ok(unknown_made());
    };
    let Some(other) = type_of(scope, elements, known, right) else {
        return Ok(unknown_made());
    };
    join_made(alloc, left, one, other)
}

/// A map of a reference.
fn map_of<'v, 'a>(
    alloc: Global,
    scope: &ScopeNames<'v, 'a>,
    elements: &Elements<'a>,
    known: &KnownTypes<'a>,
    source: &'a Reference,
    variable: &'a Name,
    body: &'a Expression,
) -> Result<MadeElement<'a>, Stop<usize>>
    ensures { AnswersAs (made_in known.now) (over (type_at scope.now elements.now known.now source.now) (map_over variable.now body.now)) result }
{
    map_made(
        alloc,
        type_of(scope, elements, known, source),
        variable,
        body,
    )
}

/// A map.
fn map_made<'b, 'a>(
    alloc: Global,
    source: Option<SourceType<'b, 'a>>,
    variable: &'a Name,
    body: &'a Expression,
) -> Result<MadeElement<'a>, Stop<usize>>
    ensures { (known : Known) → AnswersAs (made_in known) (over (option_map source_in source.entry) (map_over variable.now body.now)) result }
{
    match source {
        None => Ok(unknown_made()),
        Some(ty) => match map_body(alloc, variable, body, ty) {
            Ok(computed) => {
                let width = computed.ty.width();
                Ok(MadeElement {
                    ty: NewType::Computed(computed.ty),
                    element: TypedElement::Part {
                        part: Part::Map {
                            body: computed.formula,
                        },
                        width,
                    },
                })
            }
            Err(stop) => Err(stop),
        },
    }
}

/// A scan of a reference.
fn scan_of<'v, 'a>(
    alloc: Global,
    scope: &ScopeNames<'v, 'a>,
    elements: &Elements<'a>,
    known: &KnownTypes<'a>,
    source: &'a Reference,
    state: &'a Name,
    ty: &'a EsiType,
    initial: u128,
    variable: &'a Name,
    body: &'a Expression,
) -> Result<MadeElement<'a>, Stop<usize>>
    ensures { AnswersAs (made_in known.now) (over (type_at scope.now elements.now known.now source.now) (λ a. scan_from state.now ty.now variable.now body.now a (literal_word ty.now initial))) result }
{
    scan_made(
        alloc,
        type_of(scope, elements, known, source),
        state,
        ty,
        initial,
        variable,
        body,
    )
}

/// A scan.
fn scan_made<'b, 'a>(
    alloc: Global,
    source: Option<SourceType<'b, 'a>>,
    state: &'a Name,
    ty: &'a EsiType,
    initial: u128,
    variable: &'a Name,
    body: &'a Expression,
) -> Result<MadeElement<'a>, Stop<usize>>
    ensures { (known : Known) → AnswersAs (made_in known) (over (option_map source_in source.entry) (λ a. scan_from state.now ty.now variable.now body.now a (literal_word ty.now initial))) result }
{
    match source {
        None => Ok(unknown_made()),
        Some(input) => match literal_word(ty, initial) {
            None => Err(Stop::Refused(first_octet(body))),
            Some(word) => scan_with(alloc, word, state, ty, variable, body, input),
        },
    }
}

/// A scan with its first state.
fn scan_with<'b, 'a>(
    alloc: Global,
    word: Word,
    state: &'a Name,
    ty: &'a EsiType,
    variable: &'a Name,
    body: &'a Expression,
    input: SourceType<'b, 'a>,
) -> Result<MadeElement<'a>, Stop<usize>>
    ensures { (known : Known) → AnswersAs (made_in known) (scan_over state.now ty.now variable.now body.now word (source_in input.entry)) result }
{
    match input {
        SourceType::Value(value) => scan_over_value(alloc, word, state, ty, variable, body, value),
        SourceType::Made(made) => scan_over(alloc, word, state, ty, variable, body, made),
    }
}

/// The same over a type that stands in the text, or a bits type.
fn scan_over_value<'a>(
    alloc: Global,
    word: Word,
    state: &'a Name,
    ty: &'a EsiType,
    variable: &'a Name,
    body: &'a Expression,
    input: ValueType<'a>,
) -> Result<MadeElement<'a>, Stop<usize>>
    ensures { (known : Known) → AnswersAs (made_in known) (scan_over state.now ty.now variable.now body.now word (type_in input.entry)) result }
{
    match input {
        ValueType::Given(given) => scan_over(alloc, word, state, ty, variable, body, given),
        ValueType::Number(number) => {
            let own = number.ty();
            scan_over(alloc, word, state, ty, variable, body, &own)
        }
    }
}

/// A scan over a variable of a type.
fn scan_over<'b, 'a>(
    alloc: Global,
    word: Word,
    state: &'a Name,
    ty: &'a EsiType,
    variable: &'a Name,
    body: &'a Expression,
    input: &'b EsiType,
) -> Result<MadeElement<'a>, Stop<usize>>
    ensures { (known : Known) → AnswersAs (made_in known) (scan_over state.now ty.now variable.now body.now word input.now) result }
{
    match scan_typed(alloc, state, ty, variable, input, body) {
        Ok(typed) => {
            if typed.ty.is(ty) {
                let given = OwnType::Value(ValueType::Given(ty));
                let width = given.width();
                Ok(MadeElement {
                    ty: NewType::Computed(given),
                    element: TypedElement::Part {
                        part: Part::Scan {
                            reset: word,
                            body: typed.formula,
                        },
                        width,
                    },
                })
            } else {
                Err(Stop::Refused(first_octet(body)))
            }
        }
        Err(stop) => Err(stop),
    }
}

/// The offset of the first octet of an expression.
fn first_octet(expression: &Expression) -> usize
    ensures { result ≡ first_octet expression.now }
{
    match expression {
        Expression::Variable(name) => name.at,
        Expression::Part { of, .. } => first_octet(of.get()),
        Expression::Literal { at, .. }
        | Expression::Make { at, .. }
        | Expression::Cast { at, .. }
        | Expression::Zext { at, .. }
        | Expression::Slice { at, .. }
        | Expression::Not { at, .. }
        | Expression::Binary { at, .. }
        | Expression::Mux { at, .. } => *at,
    }
}
