//! The printers of statements and of operations.
ghost use Rattle.std.specs.Prelude.{◌≡◌, map, OnOk};
ghost use Rattle.design_tree.specs.Tokens.{with_commas, operation_tokens, binding_tokens, single_name, statement_tokens};
ghost use Rattle.design_printer.specs.Printers.{with_tokens};

use crate::expressions::print_expression;
use crate::leaves::{print_comma, print_id, print_name, print_number, print_reference};
use crate::printer::Printer;
use crate::types::print_type;
use design_grammar::Kind;
use design_tree::{Binding, Name, Operation, Statement};
use esi_base::NoMemory;

/// Adds an operation: its word, its numbers, its sources and, where it has one, its body.
#[tactic(auto, using(crate::proofs::Steps::steps))]
pub fn print_operation(printer: &mut Printer, operation: &Operation) -> Result<(), NoMemory>
    ensures { OnOk result (printer.new ≡ with_tokens (operation_tokens operation.now) printer.old) }
{
    match operation {
        Operation::Stage(source) => {
            printer.keyword(Kind::Stage)?;
            print_reference(printer, source)?;
        }
        Operation::Fork(source) => {
            printer.keyword(Kind::Fork)?;
            print_reference(printer, source)?;
        }
        Operation::AsFifo(source) => {
            printer.keyword(Kind::AsFifo)?;
            print_reference(printer, source)?;
        }
        Operation::AsVr(source) => {
            printer.keyword(Kind::AsVr)?;
            print_reference(printer, source)?;
        }
        Operation::Buffer { stages, source } => {
            printer.keyword(Kind::Buffer)?;
            print_number(printer, stages)?;
            print_reference(printer, source)?;
        }
        Operation::Fifo { depth, source } => {
            printer.keyword(Kind::Fifo)?;
            print_number(printer, depth)?;
            print_reference(printer, source)?;
        }
        Operation::Join { left, right } => {
            printer.keyword(Kind::Join)?;
            print_reference(printer, left)?;
            printer.sign(b',')?;
            print_reference(printer, right)?;
        }
        Operation::Map {
            source,
            variable,
            body,
        } => {
            printer.keyword(Kind::Map)?;
            print_reference(printer, source)?;
            printer.sign(b'(')?;
            print_name(printer, variable)?;
            printer.sign(b')')?;
            print_expression(printer, body)?;
        }
        Operation::Scan {
            source,
            state,
            ty,
            initial,
            variable,
            body,
        } => {
            printer.keyword(Kind::Scan)?;
            print_reference(printer, source)?;
            printer.sign(b'(')?;
            print_name(printer, state)?;
            printer.sign(b':')?;
            print_type(printer, ty)?;
            printer.sign(b'=')?;
            print_number(printer, initial)?;
            printer.sign(b',')?;
            print_name(printer, variable)?;
            printer.sign(b')')?;
            print_expression(printer, body)?;
        }
    }
    Ok(())
}

#[tactic(auto, using(crate::proofs::Steps::steps))]
fn print_binding(printer: &mut Printer, binding: &Binding) -> Result<(), NoMemory>
    ensures { OnOk result (printer.new ≡ with_tokens (binding_tokens binding.now) printer.old) }
{
    print_name(printer, &binding.port)?;
    printer.sign(b':')?;
    print_reference(printer, &binding.source)
}

#[tactic(auto, using(crate::proofs::Steps::steps))]
fn print_bindings(printer: &mut Printer, bindings: &[Binding]) -> Result<(), NoMemory>
    ensures { OnOk result (printer.new ≡ with_tokens (with_commas (map binding_tokens bindings.now)) printer.old) }
{
    let mut is_first = true;
    for binding in bindings {
        print_comma(printer, is_first)?;
        is_first = false;
        print_binding(printer, binding)?;
    }
    Ok(())
}

#[tactic(auto, using(crate::proofs::Steps::steps))]
fn print_names(printer: &mut Printer, names: &[Name]) -> Result<(), NoMemory>
    ensures { OnOk result (printer.new ≡ with_tokens (with_commas (map single_name names.now)) printer.old) }
{
    let mut is_first = true;
    for name in names {
        print_comma(printer, is_first)?;
        is_first = false;
        print_name(printer, name)?;
    }
    Ok(())
}

/// Adds a statement, with the `;` at its end.
#[tactic(auto, using(crate::proofs::Steps::steps))]
pub fn print_statement(printer: &mut Printer, statement: &Statement) -> Result<(), NoMemory>
    ensures { OnOk result (printer.new ≡ with_tokens (statement_tokens statement.now) printer.old) }
{
    match statement {
        Statement::Request {
            service,
            port,
            id,
            ..
        } => {
            printer.keyword(Kind::Request)?;
            print_name(printer, service)?;
            printer.sign(b'.')?;
            print_name(printer, port)?;
            printer.keyword(Kind::As)?;
            print_id(printer, id)?;
        }
        Statement::Instance {
            id,
            module,
            bindings,
            ..
        } => {
            printer.keyword(Kind::Inst)?;
            print_id(printer, id)?;
            printer.sign(b'=')?;
            print_name(printer, module)?;
            printer.sign(b'(')?;
            print_bindings(printer, bindings.as_slice())?;
            printer.sign(b')')?;
        }
        Statement::Channels {
            names,
            operation,
            ..
        } => {
            printer.keyword(Kind::Chan)?;
            print_names(printer, names.as_slice())?;
            printer.sign(b'=')?;
            print_operation(printer, operation)?;
        }
        Statement::Drive { sink, source, .. } => {
            printer.keyword(Kind::Drive)?;
            print_reference(printer, sink)?;
            printer.sign(b'=')?;
            print_reference(printer, source)?;
        }
    }
    printer.sign(b';')
}
