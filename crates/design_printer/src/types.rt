//! The printers of types.
ghost use Rattle.std.specs.Prelude.{◌≡◌, OnOk};
ghost use Rattle.design_tree.specs.Tokens.{type_tokens, field_tokens};
ghost use Rattle.design_printer.specs.Printers.{with_tokens};

use crate::leaves::print_comma;
use crate::printer::Printer;
use channel_types::{EsiType, Field};
use design_grammar::Kind;
use esi_base::NoMemory;

/// Adds a field of a struct: its name, `:` and its type.
#[cycle(a_type)]
#[tactic(auto, using(crate::proofs::Steps::steps))]
fn print_field(printer: &mut Printer, field: &Field) -> Result<(), NoMemory>
    ensures { OnOk result (printer.new ≡ with_tokens (field_tokens field.now) printer.old) }
{
    printer.word(field.name.as_slice())?;
    printer.sign(b':')?;
    print_type(printer, &field.ty)
}

/// Adds a type. Its tokens are printed as the text of the type alone (`same_types` of `canonical_law`).
#[cycle(a_type)]
#[tactic(auto, using(crate::proofs::Steps::steps))]
pub fn print_type(printer: &mut Printer, ty: &EsiType) -> Result<(), NoMemory>
    ensures { OnOk result (printer.new ≡ with_tokens (type_tokens ty.now) printer.old) }
{
    match ty {
        EsiType::Bits { class, width } => printer.type_word(*class, *width)?,
        EsiType::Void => printer.keyword(Kind::Void)?,
        EsiType::Struct(fields) => {
            printer.keyword(Kind::Struct)?;
            printer.sign(b'<')?;
            let mut is_first = true;
            for field in fields.as_slice() {
                print_comma(printer, is_first)?;
                is_first = false;
                print_field(printer, field)?;
            }
            printer.sign(b'>')?;
        }
        EsiType::Array { item, count } => {
            printer.keyword(Kind::Array)?;
            printer.sign(b'<')?;
            print_type(printer, item.get())?;
            printer.sign(b',')?;
            printer.number(*count as u128)?;
            printer.sign(b'>')?;
        }
    }
    Ok(())
}
