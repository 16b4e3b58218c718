//! The text of a type, and of its parts (docs/design-text.md).
ghost use Rattle.std.specs.Prelude.{◌≡◌, ◌≤◌, ◌++◌, drop, IfOk, OnOk, OnErr};
ghost use Rattle.std.specs.Fmt.{decimal};
ghost use Rattle.channel_types.specs.Text.{text_of};
ghost use Rattle.design_lex.specs.Spellings.{class_letters};
ghost use Rattle.channel_types.specs.Types.{IsGoodType};
ghost use Rattle.channel_types.specs.TypeAnswers.{IsTypeText};

use crate::esi_type::EsiType;
use design_lex::Class;
use esi_base::{List, NoMemory, Octets};
use std::alloc::Global;

impl EsiType {
    /// The text of the type, with one space after a comma or a colon, and none elsewhere.
    #[tactic(auto, using(crate::specs::PrintedTypes::printed_is_type))]
    pub fn print_type(&self, alloc: Global) -> Result<Octets, NoMemory>
        requires { IsGoodType self.now }
        ensures text { IfOk result (λ text. text ≡ text_of self.now) }

        // It is a text of the type in the grammar.
        ensures of_type { IfOk result (λ text. IsTypeText text self.now) }
    {
        let mut text = List::new(alloc);
        push_type(&mut text, self)?;
        Ok(text)
    }
}

/// Adds the text of a type.
fn push_type(text: &mut Octets, ty: &EsiType) -> Result<(), NoMemory>
    ensures { OnOk result (text.new ≡ text.old ++ text_of ty.now) }
{
    match ty {
        EsiType::Bits { class, width } => {
            push_class(text, *class)?;
            push_number(text, *width as u128)?;
        }
        EsiType::Void => text.push_all(b"void")?,
        EsiType::Struct(fields) => {
            text.push_all(b"struct<")?;
            let mut is_first = true;
            for field in fields.as_slice() {
                if !is_first {
                    text.push_all(b", ")?;
                }
                is_first = false;
                text.push_all(field.name.as_slice())?;
                text.push_all(b": ")?;
                push_type(text, &field.ty)?;
            }
            text.push_all(b">")?;
        }
        EsiType::Array { item, count } => {
            text.push_all(b"array<")?;
            push_type(text, item.get())?;
            text.push_all(b", ")?;
            push_number(text, *count as u128)?;
            text.push_all(b">")?;
        }
    }
    Ok(())
}

/// Adds the letters with which the type words of a class begin. It fails only when it runs out of
/// memory, and then leaves the text as it was.
pub fn push_class(text: &mut Octets, class: Class) -> Result<(), NoMemory>
    ensures pushed { OnOk result (text.new ≡ text.old ++ class_letters class) }
    ensures unchanged { OnErr result (text.new ≡ text.old) }
{
    let letters = letters_of(class);
    text.push_all(letters)?;
    Ok(())
}

/// The letters of a class.
fn letters_of(class: Class) -> &'static [u8]
    ensures { result.now ≡ class_letters class }
{
    match class {
        Class::Unsigned => b"ui",
        Class::Signed => b"si",
        Class::Plain => b"i",
    }
}

/// Adds a number in decimal, without a leading zero. It takes memory for the text alone. It fails only
/// when it runs out of memory, and then leaves the text as it was.
pub fn push_number(text: &mut Octets, number: u128) -> Result<(), NoMemory>
    ensures pushed { OnOk result (text.new ≡ text.old ++ decimal number) }
    ensures unchanged { OnErr result (text.new ≡ text.old) }
{
    let mut digits = [0; 39];
    let start = put_digits(&mut digits, number);
    text.push_all(&digits[start..])?;
    Ok(())
}

/// Writes the decimal digits of a number at the end of the array, which has room for those of every
/// number. The result is the index of the first one.
#[tactic(auto, using(crate::proofs::Decimals::none_put, crate::proofs::Decimals::digits_before, crate::proofs::Decimals::first_put))]
fn put_digits(digits: &mut [u8; 39], number: u128) -> usize
    ensures within { result ≤ 39 }
    ensures put { drop result digits.new ≡ decimal number }
{
    let mut rest = number;
    let mut at = 38;
    while rest >= 10 {
        digits[at] = b'0' + (rest % 10) as u8;
        rest /= 10;
        at -= 1;
    }
    digits[at] = b'0' + rest as u8;
    at
}
