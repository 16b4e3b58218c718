//! The printers of names, numbers, application ids and references.
ghost use Rattle.std.specs.Prelude.{◌≡◌, OnOk};
ghost use Rattle.design_tree.specs.Tokens.{name_token, number_token, index_tokens, id_tokens, reference_tokens};
ghost use Rattle.design_printer.specs.Printers.{with_token, with_tokens, with_comma};

use crate::printer::Printer;
use design_tree::{ApplicationId, Name, Number, Reference};
use esi_base::NoMemory;

/// Adds a name. Like each function of this crate that adds tokens, it fails only when it runs out of
/// memory, and then nothing is known of the printer.
pub fn print_name(printer: &mut Printer, name: &Name) -> Result<(), NoMemory>
    ensures { OnOk result (printer.new ≡ with_token (name_token name.now) printer.old) }
{
    printer.word(name.octets.as_slice())
}

/// Adds a number, in decimal.
pub fn print_number(printer: &mut Printer, number: &Number) -> Result<(), NoMemory>
    ensures { OnOk result (printer.new ≡ with_token (number_token number.now) printer.old) }
{
    printer.number(number.value)
}

/// Adds the index of an application id in brackets, where it has one.
fn print_index(printer: &mut Printer, index: Option<u32>) -> Result<(), NoMemory>
    ensures { OnOk result (printer.new ≡ with_tokens (index_tokens index) printer.old) }
{
    if let Some(index) = index {
        printer.sign(b'[')?;
        printer.number(index as u128)?;
        printer.sign(b']')?;
    }
    Ok(())
}

/// Adds an application id: its name and, where it has one, its index.
pub fn print_id(printer: &mut Printer, id: &ApplicationId) -> Result<(), NoMemory>
    ensures { OnOk result (printer.new ≡ with_tokens (id_tokens id.now) printer.old) }
{
    print_name(printer, &id.name)?;
    print_index(printer, id.index)
}

/// Adds a reference: the name of a channel, or an application id, `.` and the name of a member.
#[tactic(auto, using(crate::proofs::Steps::steps))]
pub fn print_reference(printer: &mut Printer, reference: &Reference) -> Result<(), NoMemory>
    ensures { OnOk result (printer.new ≡ with_tokens (reference_tokens reference.now) printer.old) }
{
    match reference {
        Reference::Channel(name) => print_name(printer, name)?,
        Reference::Member { id, name } => {
            print_id(printer, id)?;
            printer.sign(b'.')?;
            print_name(printer, name)?;
        }
    }
    Ok(())
}

/// Adds the comma before an element of a list that is not its first.
pub fn print_comma(printer: &mut Printer, is_first: bool) -> Result<(), NoMemory>
    ensures { OnOk result (printer.new ≡ with_comma is_first printer.old) }
{
    if !is_first {
        printer.sign(b',')?;
    }
    Ok(())
}
