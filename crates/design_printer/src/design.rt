//! The printers of the top, of a pipe, and of a whole design.
ghost use Rattle.std.specs.Prelude.{◌≡◌, map, All, IfOk, OnOk};
ghost use Rattle.std.specs.List.{flat_map};
ghost use Rattle.design_tree.specs.Tokens.{pipe_tokens, top_item_tokens, top_tokens, declaration_tokens, tokens_after_version, tokens_of};
ghost use Rattle.design_printer.specs.Canonical.{canonical};
ghost use Rattle.design_lex.specs.Tokens.{tokens};
ghost use Rattle.design_printer.specs.CutAgain.{IsPrintable, token_in};
ghost use Rattle.design_printer.specs.Printers.{with_tokens};

use crate::declarations::print_declaration;
use crate::leaves::{print_name, print_number};
use crate::printer::Printer;
use crate::statements::print_statement;
use crate::types::print_type;
use design_grammar::Kind;
use design_tree::{Declaration, DesignTree, Pipe, Top, TopItem};
use esi_base::{NoMemory, Octets};
use std::alloc::Global;

#[tactic(auto, using(crate::proofs::Steps::steps))]
fn print_pipe(printer: &mut Printer, pipe: &Pipe) -> Result<(), NoMemory>
    ensures { OnOk result (printer.new ≡ with_tokens (pipe_tokens pipe.now) printer.old) }
{
    printer.keyword(Kind::Pipe)?;
    print_type(printer, &pipe.ty)?;
    printer.keyword(Kind::Stages)?;
    print_number(printer, &pipe.stages)?;
    printer.sign(b';')
}

fn print_top_item(printer: &mut Printer, item: &TopItem) -> Result<(), NoMemory>
    ensures { OnOk result (printer.new ≡ with_tokens (top_item_tokens item.now) printer.old) }
{
    match item {
        TopItem::Statement(statement) => print_statement(printer, statement)?,
        TopItem::Implement(service) => {
            printer.keyword(Kind::Implement)?;
            print_name(printer, service)?;
            printer.sign(b';')?;
        }
    }
    Ok(())
}

#[tactic(auto, using(crate::proofs::Steps::steps))]
fn print_top(printer: &mut Printer, top: &Top) -> Result<(), NoMemory>
    ensures { OnOk result (printer.new ≡ with_tokens (top_tokens top.now) printer.old) }
{
    printer.keyword(Kind::Top)?;
    print_name(printer, &top.name)?;
    printer.sign(b'{')?;
    for item in top.body.as_slice() {
        print_top_item(printer, item)?;
    }
    printer.sign(b'}')
}

#[tactic(auto, using(crate::proofs::Steps::steps))]
fn print_declarations(printer: &mut Printer, declarations: &[Declaration]) -> Result<(), NoMemory>
    ensures { OnOk result (printer.new ≡ with_tokens (flat_map declaration_tokens declarations.now) printer.old) }
{
    for declaration in declarations {
        print_declaration(printer, declaration)?;
    }
    Ok(())
}

#[tactic(auto, using(crate::proofs::Steps::steps))]
fn print_after_version(printer: &mut Printer, tree: &DesignTree) -> Result<(), NoMemory>
    ensures { OnOk result (printer.new ≡ with_tokens (tokens_after_version tree.now) printer.old) }
{
    match tree {
        DesignTree::Pipe(pipe) => print_pipe(printer, pipe)?,
        DesignTree::Modules { declarations, top } => {
            print_declarations(printer, declarations.as_slice())?;
            print_top(printer, top)?;
        }
    }
    Ok(())
}

/// The canonical text of a design: its tokens in order, numbers in decimal. LF follows each of `;`, `{`
/// and `}`. One space stands between any other two tokens, but none before `; : , . ) ] > < [ (` and none
/// after `( [ < .`. A type in it has the text with which the type is printed alone (`same_types` of
/// `canonical_law`). It fails only when it runs out of memory.
pub fn print_tree(alloc: Global, tree: &DesignTree) -> Result<Octets, NoMemory>
    ensures text { IfOk result (λ text. text ≡ canonical (tokens_of tree.now)) }

    // Where the design's tokens are spelled right, the text is cut into them again.
    ensures again { IfOk result (λ text. All IsPrintable (tokens_of tree.now) → map token_in (tokens text 0) ≡ tokens_of tree.now) }
{
    let mut printer = Printer::new(alloc);
    printer.keyword(Kind::Esi)?;
    printer.number(1)?;
    printer.sign(b';')?;
    print_after_version(&mut printer, tree)?;
    Ok(printer.text)
}
