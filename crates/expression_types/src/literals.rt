//! Numbers as values of a type.
ghost use Rattle.std.specs.Prelude.{◌≡◌, ◌^◌, nat_lt};
ghost use Rattle.channel_types.specs.declared.esi_type.EsiType.TheOpen.{EsiType-F};
ghost use Rattle.esi_base.specs.Answers.{AnswersAs};
ghost use Rattle.expression_types.specs.Views.{typed_in};
ghost use Rattle.expression_types.specs.Typing.{literal_word, level_literal, literal_of};

use crate::typed::Typed;
use crate::value_type::ValueType;
use channel_types::{Class, EsiType, WIDEST_TYPE};
use esi_base::{Stop, Word};
use netlist::Formula;

/// A literal.
pub(crate) fn literal_typed<'a>(
    at: usize,
    ty: &'a EsiType,
    value: u128,
) -> Result<Typed<'a>, Stop<usize>>
    ensures { AnswersAs typed_in (literal_of at ty.now value) result }
{
    match literal_word(ty, value) {
        Some(word) => Ok(Typed {
            at,
            ty: ValueType::Given(ty),
            formula: Formula::Const(word),
        }),
        None => Err(Stop::Refused(at)),
    }
}

/// The word of a number as a value of a type: of a bits type into which it fits, or of `void`, whose value
/// is 0. None for each other type and number. A scan's initial number is of its state's type in this way.
#[tactic(auto, unfolding(crate::specs::Typing::literal_word))]
pub fn literal_word(ty: &EsiType, value: u128) -> Option<Word>
    ensures { result ≡ literal_word ty.now value }
{
    match ty {
        EsiType::Bits { class, width } => number_word(*class, *width, value),
        EsiType::Void => void_word(value),
        EsiType::Struct(_) => None,
        EsiType::Array { item: _, count: _ } => None,
    }
}

/// The word of a number of a bits type.
fn number_word(class: Class, width: u32, value: u128) -> Option<Word>
    ensures { result ≡ level_literal (EsiType-F.Bits class width) value }
{
    let _any_class = class;
    if 1 <= width && width <= WIDEST_TYPE && fits_width(width, value) {
        Some(Word::from_u128(width, value))
    } else {
        None
    }
}

/// The word of a number of the type `void`.
fn void_word(value: u128) -> Option<Word>
    ensures { result ≡ level_literal EsiType-F.Void value }
{
    if value == 0 {
        Some(Word::from_u128(1, 0))
    } else {
        None
    }
}

/// Whether a number fits so many bits.
fn fits_width(width: u32, value: u128) -> bool
    ensures { result ≡ nat_lt value (2 ^ width) }
{
    width >= 128 || value < 1 << width
}
