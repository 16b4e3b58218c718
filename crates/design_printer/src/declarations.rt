//! The printers of bundles, services and modules.
ghost use Rattle.std.specs.Prelude.{◌≡◌, map, OnOk};
ghost use Rattle.std.specs.List.{flat_map};
ghost use Rattle.design_tree.specs.Tokens.{with_commas, member_tokens, bundle_tokens, service_port_tokens, service_tokens, module_port_tokens, module_tokens, statement_tokens, declaration_tokens};
ghost use Rattle.design_printer.specs.Printers.{with_tokens};

use crate::leaves::{print_comma, print_name};
use crate::printer::Printer;
use crate::statements::print_statement;
use crate::types::print_type;
use design_grammar::Kind;
use design_tree::{
    Bundle, Declaration, Member, Module, ModulePort, Service, ServicePort, Statement,
};
use esi_base::NoMemory;

#[tactic(auto, using(crate::proofs::Steps::steps))]
fn print_member(printer: &mut Printer, member: &Member) -> Result<(), NoMemory>
    ensures { OnOk result (printer.new ≡ with_tokens (member_tokens member.now) printer.old) }
{
    print_name(printer, &member.name)?;
    printer.sign(b':')?;
    printer.word(member.direction.word())?;
    print_type(printer, &member.ty)?;
    printer.sign(b';')
}

#[tactic(auto, using(crate::proofs::Steps::steps))]
fn print_bundle(printer: &mut Printer, bundle: &Bundle) -> Result<(), NoMemory>
    ensures { OnOk result (printer.new ≡ with_tokens (bundle_tokens bundle.now) printer.old) }
{
    printer.keyword(Kind::Bundle)?;
    print_name(printer, &bundle.name)?;
    printer.sign(b'{')?;
    for member in bundle.members.as_slice() {
        print_member(printer, member)?;
    }
    printer.sign(b'}')
}

fn print_service_port(printer: &mut Printer, port: &ServicePort) -> Result<(), NoMemory>
    ensures { OnOk result (printer.new ≡ with_tokens (service_port_tokens port.now) printer.old) }
{
    printer.keyword(Kind::Port)?;
    print_name(printer, &port.name)?;
    printer.sign(b':')?;
    print_name(printer, &port.bundle)?;
    printer.sign(b';')
}

#[tactic(auto, using(crate::proofs::Steps::steps))]
fn print_service(printer: &mut Printer, service: &Service) -> Result<(), NoMemory>
    ensures { OnOk result (printer.new ≡ with_tokens (service_tokens service.now) printer.old) }
{
    printer.keyword(Kind::Service)?;
    print_name(printer, &service.name)?;
    printer.sign(b'{')?;
    for port in service.ports.as_slice() {
        print_service_port(printer, port)?;
    }
    printer.sign(b'}')
}

fn print_module_port(printer: &mut Printer, port: &ModulePort) -> Result<(), NoMemory>
    ensures { OnOk result (printer.new ≡ with_tokens (module_port_tokens port.now) printer.old) }
{
    printer.word(port.direction.word())?;
    print_name(printer, &port.name)?;
    printer.sign(b':')?;
    print_type(printer, &port.ty)
}

#[tactic(auto, using(crate::proofs::Steps::steps))]
fn print_module_ports(printer: &mut Printer, ports: &[ModulePort]) -> Result<(), NoMemory>
    ensures { OnOk result (printer.new ≡ with_tokens (with_commas (map module_port_tokens ports.now)) printer.old) }
{
    let mut is_first = true;
    for port in ports {
        print_comma(printer, is_first)?;
        is_first = false;
        print_module_port(printer, port)?;
    }
    Ok(())
}

#[tactic(auto, using(crate::proofs::Steps::steps))]
fn print_statements(printer: &mut Printer, statements: &[Statement]) -> Result<(), NoMemory>
    ensures { OnOk result (printer.new ≡ with_tokens (flat_map statement_tokens statements.now) printer.old) }
{
    for statement in statements {
        print_statement(printer, statement)?;
    }
    Ok(())
}

#[tactic(auto, using(crate::proofs::Steps::steps))]
fn print_module(printer: &mut Printer, definition: &Module) -> Result<(), NoMemory>
    ensures { OnOk result (printer.new ≡ with_tokens (module_tokens definition.now) printer.old) }
{
    printer.keyword(Kind::Module)?;
    print_name(printer, &definition.name)?;
    printer.sign(b'(')?;
    print_module_ports(printer, definition.ports.as_slice())?;
    printer.sign(b')')?;
    printer.sign(b'{')?;
    print_statements(printer, definition.body.as_slice())?;
    printer.sign(b'}')
}

/// Adds a bundle, a service or a module.
pub fn print_declaration(printer: &mut Printer, declaration: &Declaration) -> Result<(), NoMemory>
    ensures { OnOk result (printer.new ≡ with_tokens (declaration_tokens declaration.now) printer.old) }
{
    match declaration {
        Declaration::Bundle(bundle) => print_bundle(printer, bundle),
        Declaration::Service(service) => print_service(printer, service),
        Declaration::Module(definition) => print_module(printer, definition),
    }
}
