//! Two channels in step.
ghost use Rattle.std.specs.Prelude.{◌≡◌, ◌+◌, ◌≤◌, nat_le, max, IfOk};
ghost use Rattle.design_lex.specs.declared.limits.TheConstants.{TOO_WIDE};
ghost use Rattle.esi_base.specs.Answers.{AnswersAs};
ghost use Rattle.channel_typing.specs.Joins.{join_type, joinable, field_of};
ghost use Rattle.channel_typing.specs.Typing.{Known, joined};
ghost use Rattle.channel_typing.specs.Views.{source_in, made_in};

use crate::made_element::{MadeElement, NewType};
use crate::own_type::OwnType;
use crate::source_type::SourceType;
use crate::typed_element::TypedElement;
use channel_types::{EsiType, Field, OPEN_TYPES, WIDEST_TYPE, capped_width};
use check_rules::keys::reference_mark;
use design_tree::Reference;
use esi_base::{List, NoMemory, Stop};
use netlist::Part;
use sqlite_items::Items;
use std::alloc::Global;

/// A join of two channels.
pub(crate) fn join_made<'b, 'a>(
    alloc: Global,
    left: &Reference,
    one: SourceType<'b, 'a>,
    other: SourceType<'b, 'a>,
) -> Result<MadeElement<'a>, Stop<usize>>
    ensures { (known : Known) → AnswersAs (made_in known) (joined left.now (source_in one.entry) (source_in other.entry)) result }
{
    if !are_joinable(&one, &other) {
        return Err(Stop::Refused(reference_mark(left).at));
    }
    let ty = join_type(alloc, &one, &other)?;
    let width = capped_width(&ty);
    Ok(MadeElement {
        ty: NewType::Computed(OwnType::Own(ty)),
        element: TypedElement::Part {
            part: Part::Join,
            width,
        },
    })
}

/// Whether two types can be joined.
#[tactic(auto, using(crate::proofs::Caps::capped_widths, crate::proofs::Caps::capped_nestings))]
fn are_joinable<'b, 'a>(one: &SourceType<'b, 'a>, other: &SourceType<'b, 'a>) -> bool
    ensures { result ≡ joinable (source_in one.now) (source_in other.now) }
{
    are_narrow(one.width(), other.width()) && are_flat(one.nesting(), other.nesting())
}

/// Whether two widths, as they are capped, have a sum that types have.
fn are_narrow(one: u32, other: u32) -> bool
    requires one { one ≤ TOO_WIDE }
    requires other { other ≤ TOO_WIDE }
    ensures { result ≡ nat_le (one + other) WIDEST_TYPE }
{
    one + other <= WIDEST_TYPE
}

/// Whether a type with two such types in it is flat enough.
fn are_flat(one: u32, other: u32) -> bool
    ensures { result ≡ nat_le (max one other + 1) OPEN_TYPES }
{
    one < OPEN_TYPES && other < OPEN_TYPES
}

/// The type of the join.
fn join_type<'b, 'a>(
    alloc: Global,
    one: &SourceType<'b, 'a>,
    other: &SourceType<'b, 'a>,
) -> Result<EsiType, NoMemory>
    ensures { IfOk result (λ ty. ty ≡ join_type (source_in one.now) (source_in other.now)) }
{
    let mut fields = Items::new(alloc);
    fields.push(named_field(alloc, b"l", one.copy(alloc)?)?)?;
    fields.push(named_field(alloc, b"r", other.copy(alloc)?)?)?;
    Ok(EsiType::Struct(fields))
}

/// A field of a name.
fn named_field(alloc: Global, name: &[u8], ty: EsiType) -> Result<Field, NoMemory>
    ensures { IfOk result (λ made. made ≡ field_of name.now ty) }
{
    Ok(Field {
        name: List::from_slice(alloc, name)?,
        ty,
    })
}
