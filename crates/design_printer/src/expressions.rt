//! The printers of expressions.
ghost use Rattle.std.specs.Prelude.{◌≡◌, ◌∷◌, [], map, OnOk};
ghost use Rattle.std.specs.List.{flat_map};
ghost use Rattle.design_lex.specs.declared.token.Token.TheVariants.{Word as word_token};
ghost use Rattle.design_tree.specs.Tokens.{suffix_tokens, expression_tokens, COMMA, OPEN};
ghost use Rattle.design_printer.specs.Printers.{with_tokens};

use crate::leaves::{print_name, print_number};
use crate::printer::Printer;
use crate::types::print_type;
use design_grammar::Kind;
use design_grammar::words::word_of;
use design_tree::{Expression, Suffix};
use esi_base::NoMemory;

/// Adds the word of an operator and the parenthesis that opens its operands.
fn open(printer: &mut Printer, operator: &[u8]) -> Result<(), NoMemory>
    ensures { OnOk result (printer.new ≡ with_tokens (word_token operator.now ∷ OPEN ∷ []) printer.old) }
{
    printer.word(operator)?;
    printer.sign(b'(')
}

#[tactic(auto, using(crate::proofs::Steps::steps))]
fn print_suffix(printer: &mut Printer, suffix: &Suffix) -> Result<(), NoMemory>
    ensures { OnOk result (printer.new ≡ with_tokens (suffix_tokens suffix.now) printer.old) }
{
    match suffix {
        Suffix::Field(name) => {
            printer.sign(b'.')?;
            print_name(printer, name)?;
        }
        Suffix::Element(index) => {
            printer.sign(b'[')?;
            print_number(printer, index)?;
            printer.sign(b']')?;
        }
    }
    Ok(())
}

#[tactic(auto, using(crate::proofs::Steps::steps))]
fn print_suffixes(printer: &mut Printer, suffixes: &[Suffix]) -> Result<(), NoMemory>
    ensures { OnOk result (printer.new ≡ with_tokens (flat_map suffix_tokens suffixes.now) printer.old) }
{
    for suffix in suffixes {
        print_suffix(printer, suffix)?;
    }
    Ok(())
}

/// Adds expressions, each after a comma.
#[cycle(an_expression)]
#[tactic(auto, using(crate::proofs::Steps::steps))]
fn print_others(printer: &mut Printer, expressions: &[Expression]) -> Result<(), NoMemory>
    ensures { OnOk result (printer.new ≡ with_tokens (flat_map (λ y. COMMA ∷ y) (map expression_tokens expressions.now)) printer.old) }
{
    for expression in expressions {
        printer.sign(b',')?;
        print_expression(printer, expression)?;
    }
    Ok(())
}

/// Adds an expression: a name, an expression with its suffixes, or an operator with its operands in
/// parentheses.
#[cycle(an_expression)]
#[tactic(auto, using(crate::proofs::Steps::expression_steps))]
pub fn print_expression(printer: &mut Printer, expression: &Expression) -> Result<(), NoMemory>
    ensures { OnOk result (printer.new ≡ with_tokens (expression_tokens expression.now) printer.old) }
{
    match expression {
        Expression::Variable(name) => print_name(printer, name)?,
        Expression::Part { of, suffixes } => {
            print_expression(printer, of.get())?;
            print_suffixes(printer, suffixes.as_slice())?;
        }
        Expression::Literal { ty, value, .. } => {
            open(printer, word_of(Kind::Lit))?;
            print_type(printer, ty)?;
            printer.sign(b',')?;
            print_number(printer, value)?;
            printer.sign(b')')?;
        }
        Expression::Make { ty, parts, .. } => {
            open(printer, word_of(Kind::Make))?;
            print_type(printer, ty)?;
            print_others(printer, parts.as_slice())?;
            printer.sign(b')')?;
        }
        Expression::Cast { ty, of, .. } => {
            open(printer, word_of(Kind::Cast))?;
            print_type(printer, ty)?;
            printer.sign(b',')?;
            print_expression(printer, of.get())?;
            printer.sign(b')')?;
        }
        Expression::Zext { width, of, .. } => {
            open(printer, word_of(Kind::Zext))?;
            print_number(printer, width)?;
            printer.sign(b',')?;
            print_expression(printer, of.get())?;
            printer.sign(b')')?;
        }
        Expression::Slice { high, low, of, .. } => {
            open(printer, word_of(Kind::Slice))?;
            print_number(printer, high)?;
            printer.sign(b',')?;
            print_number(printer, low)?;
            printer.sign(b',')?;
            print_expression(printer, of.get())?;
            printer.sign(b')')?;
        }
        Expression::Not { of, .. } => {
            open(printer, word_of(Kind::Not))?;
            print_expression(printer, of.get())?;
            printer.sign(b')')?;
        }
        Expression::Binary {
            operator,
            left,
            right,
            ..
        } => {
            open(printer, operator.word())?;
            print_expression(printer, left.get())?;
            printer.sign(b',')?;
            print_expression(printer, right.get())?;
            printer.sign(b')')?;
        }
        Expression::Mux {
            condition,
            when_one,
            when_zero,
            ..
        } => {
            open(printer, word_of(Kind::Mux))?;
            print_expression(printer, condition.get())?;
            printer.sign(b',')?;
            print_expression(printer, when_one.get())?;
            printer.sign(b',')?;
            print_expression(printer, when_zero.get())?;
            printer.sign(b')')?;
        }
    }
    Ok(())
}
