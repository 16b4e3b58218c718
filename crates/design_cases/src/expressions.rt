//! Expressions, with the offsets of their leaves and operators.

use crate::cursor_reading::add_refusal;
use crate::escapes::{add_offset, octets_of};
use channel_types::{EsiType, capped_width};
use design_expressions::next_expression;
use design_lex::Cursor;
use design_tree::{Binary, Expression, Name, Number, Suffix};
use esi_base::NoMemory;
use std::alloc::Global;

/// The expression that stands first in a text, and the offset of the token after it, as `a@0 2`; or its
/// refusal and where it is reported, as `205 4`.
pub fn answer(alloc: Global, text: &str) -> Result<Option<String>, NoMemory> {
    let Some(octets) = octets_of(alloc, text)? else {
        return Ok(None);
    };
    let mut out = String::new(alloc);
    let mut cursor = Cursor::new(octets.as_slice());
    match next_expression(&mut cursor, alloc) {
        Ok(expression) => {
            show(alloc, &mut out, &expression)?;
            add_offset(alloc, &mut out, cursor.token_begin())?;
        }
        Err(stop) => add_refusal(alloc, &mut out, stop)?,
    }
    Ok(Some(out))
}

/// Adds a name and the offset of its first octet, as `a@0`.
fn show_name(alloc: Global, out: &mut String, name: &Name) -> Result<(), NoMemory> {
    for octet in name.octets.as_slice() {
        out.push(char::from(*octet))?;
    }
    let at = name.at;
    out.push_str(format!(in alloc; "@{at}")?.as_str())?;
    Ok(())
}

/// Adds a number and the offset of its first octet, as ` 3@9`.
fn show_number(alloc: Global, out: &mut String, number: &Number) -> Result<(), NoMemory> {
    let value = number.value;
    let at = number.at;
    out.push_str(format!(in alloc; " {value}@{at}")?.as_str())?;
    Ok(())
}

/// Adds the word of an operator and the offset of its first octet, as `(add@0`.
fn show_operator(alloc: Global, out: &mut String, word: &str, at: usize) -> Result<(), NoMemory> {
    out.push_str(format!(in alloc; "({word}@{at}")?.as_str())?;
    Ok(())
}

fn word_of(operator: Binary) -> &'static str {
    match operator {
        Binary::And => "and",
        Binary::Or => "or",
        Binary::Xor => "xor",
        Binary::Add => "add",
        Binary::Sub => "sub",
        Binary::Eq => "eq",
        Binary::Lt => "lt",
        Binary::Cat => "cat",
    }
}

/// Adds the width of a type in bits, as ` <8>`.
fn show_type(alloc: Global, out: &mut String, ty: &EsiType) -> Result<(), NoMemory> {
    let width = capped_width(ty);
    out.push_str(format!(in alloc; " <{width}>")?.as_str())?;
    Ok(())
}

/// Adds a suffix, as ` .a@2` or ` [] 1@4`.
fn show_suffix(alloc: Global, out: &mut String, suffix: &Suffix) -> Result<(), NoMemory> {
    match suffix {
        Suffix::Field(name) => {
            out.push_str(" .")?;
            show_name(alloc, out, name)
        }
        Suffix::Element(index) => {
            out.push_str(" []")?;
            show_number(alloc, out, index)
        }
    }
}

/// Adds the operator of an expression with the offset of its first octet, and the types and numbers between
/// its parentheses; nothing of a variable or a part.
fn show_operator_of(
    alloc: Global,
    out: &mut String,
    expression: &Expression,
) -> Result<(), NoMemory> {
    match expression {
        Expression::Variable(_) | Expression::Part { .. } => Ok(()),
        Expression::Literal { at, ty, value } => {
            show_operator(alloc, out, "lit", *at)?;
            show_type(alloc, out, ty)?;
            show_number(alloc, out, value)
        }
        Expression::Make { at, ty, .. } => show_typed(alloc, out, "make", *at, ty),
        Expression::Cast { at, ty, .. } => show_typed(alloc, out, "cast", *at, ty),
        Expression::Zext { at, width, .. } => {
            show_operator(alloc, out, "zext", *at)?;
            show_number(alloc, out, width)
        }
        Expression::Slice { at, high, low, .. } => {
            show_operator(alloc, out, "slice", *at)?;
            show_number(alloc, out, high)?;
            show_number(alloc, out, low)
        }
        Expression::Not { at, .. } => show_operator(alloc, out, "not", *at),
        Expression::Binary { at, operator, .. } => {
            show_operator(alloc, out, word_of(*operator), *at)
        }
        Expression::Mux { at, .. } => show_operator(alloc, out, "mux", *at),
    }
}

/// Adds an operator and its type.
fn show_typed(
    alloc: Global,
    out: &mut String,
    word: &str,
    at: usize,
    ty: &EsiType,
) -> Result<(), NoMemory> {
    show_operator(alloc, out, word, at)?;
    show_type(alloc, out, ty)
}

/// Adds suffixes.
fn show_suffixes(alloc: Global, out: &mut String, suffixes: &[Suffix]) -> Result<(), NoMemory> {
    for suffix in suffixes {
        show_suffix(alloc, out, suffix)?;
    }
    Ok(())
}

/// Adds an expression: its operator with the offset of its first octet, and its parts, as
/// `(add@0 a@4 b@7)`; a type as its width.
fn show(alloc: Global, out: &mut String, expression: &Expression) -> Result<(), NoMemory> {
    show_operator_of(alloc, out, expression)?;
    match expression {
        Expression::Variable(name) => return show_name(alloc, out, name),
        Expression::Part { of, suffixes } => {
            out.push_str("(part ")?;
            show(alloc, out, of.get())?;
            show_suffixes(alloc, out, suffixes.as_slice())?;
        }
        Expression::Literal { .. } => {}
        Expression::Make { parts, .. } => {
            for part in parts.as_slice() {
                out.push_str(" ")?;
                show(alloc, out, part)?;
            }
        }
        Expression::Cast { of, .. }
        | Expression::Zext { of, .. }
        | Expression::Slice { of, .. }
        | Expression::Not { of, .. } => {
            out.push_str(" ")?;
            show(alloc, out, of.get())?;
        }
        Expression::Binary { left, right, .. } => {
            out.push_str(" ")?;
            show(alloc, out, left.get())?;
            out.push_str(" ")?;
            show(alloc, out, right.get())?;
        }
        Expression::Mux {
            condition,
            when_one,
            when_zero,
            ..
        } => {
            out.push_str(" ")?;
            show(alloc, out, condition.get())?;
            out.push_str(" ")?;
            show(alloc, out, when_one.get())?;
            out.push_str(" ")?;
            show(alloc, out, when_zero.get())?;
        }
    }
    out.push_str(")")?;
    Ok(())
}
