//! Random canonical texts of types, expressions and designs, and texts of the same tokens with other gaps.

use case_words::Numbers;
use esi_base::NoMemory;
use std::alloc::Global;

/// A canonical text of a good type, of at most 600 bits.
pub fn type_text(alloc: Global, numbers: &mut Numbers) -> Result<String, NoMemory> {
    let mut text = leaf_type(alloc, numbers, 24)?;
    for _ in 0..numbers.below(4) {
        let inner = text.as_str();
        text = match numbers.below(3) {
            0 => {
                let count = numbers.below(2) + 1;
                format!(in alloc; "array<{inner}, {count}>")?
            }
            1 => format!(in alloc; "struct<a: {inner}>")?,
            _ => {
                let other = leaf_type(alloc, numbers, 24)?;
                format!(in alloc; "struct<lit: {other}, b: {inner}, _1: {other}>")?
            }
        };
    }
    Ok(text)
}

/// A type without parts, of at most so many bits.
fn leaf_type(alloc: Global, numbers: &mut Numbers, most: u32) -> Result<String, NoMemory> {
    let width = numbers.next() % most.max(1) + 1;
    match numbers.below(5) {
        0 => Ok(String::from_str(alloc, "void")?),
        1 => Ok(format!(in alloc; "si{width}")?),
        2 => Ok(format!(in alloc; "i{width}")?),
        _ => Ok(format!(in alloc; "ui{width}")?),
    }
}

/// Expressions round another one, `@`; `#` is a number and `$` a type.
const EXPRESSIONS: [&str; 12] = [
    "not(@)",
    "add(@, w.f[#])",
    "cat(lit(ui9, #), @)",
    "mux(c, @, mux)",
    "slice(#, 0, @)",
    "zext(#, @)",
    "cast($, @)",
    "make($, @, v, not(x))",
    "eq(@, @)",
    "xor(lt(a, b), @)",
    "or(sub, @)",
    "and(@, sub(x, y)[#].g)",
];

/// Statements round an expression.
const STATEMENTS: [&str; 11] = [
    "request s.p as a[#];\n",
    "inst a[#] = m(p: r, add: a.b, q: a[1].c);\n",
    "inst a = m();\n",
    "chan a, b = fork c[#].d;\n",
    "chan a = buffer # b.c;\n",
    "chan a = fifo # b;\n",
    "chan a = join b, c.d;\n",
    "chan a = scan b(s: $ = #, v) @;\n",
    "drive a.b = c[#].d;\n",
    "chan a = stage mux;\n",
    "chan a = map b(v) @;\n",
];

/// Declarations round statements.
const DECLARATIONS: [&str; 4] = [
    "bundle b {\nx: to_hw $;\nlit: from_hw $;\n}\n",
    "service s {\nport p: b;\nport mux: cat;\n}\n",
    "module m(in a: $, out b: $) {\n@}\n",
    "module m() {\n@}\n",
];

/// One of some texts round another one.
fn one_round(
    alloc: Global,
    texts: &[&'static str],
    inner: &str,
    numbers: &mut Numbers,
) -> Result<String, NoMemory> {
    let at = numbers.next() as usize % texts.len().max(1);
    let text = texts.get(at).copied().unwrap_or("");
    let mut out = String::new(alloc);
    for octet in text.bytes() {
        add_octet(alloc, &mut out, octet, inner, numbers)?;
    }
    Ok(out)
}

/// Adds what an octet of such a text stands for.
fn add_octet(
    alloc: Global,
    out: &mut String,
    octet: u8,
    inner: &str,
    numbers: &mut Numbers,
) -> Result<(), NoMemory> {
    match octet {
        b'@' => out.push_str(inner)?,
        b'#' => {
            let number = numbers.next();
            out.push_str(format!(in alloc; "{number}")?.as_str())?;
        }
        b'$' => out.push_str(type_text(alloc, numbers)?.as_str())?,
        other => out.push(char::from(other))?,
    }
    Ok(())
}

/// A canonical text of an expression.
fn expression_text(alloc: Global, numbers: &mut Numbers) -> Result<String, NoMemory> {
    let mut text = String::from_str(alloc, "v")?;
    for _ in 0..numbers.below(12) {
        text = one_round(alloc, &EXPRESSIONS, text.as_str(), numbers)?;
    }
    Ok(text)
}

/// Statements, each with the end of its line.
fn body_text(alloc: Global, numbers: &mut Numbers) -> Result<String, NoMemory> {
    let mut text = String::new(alloc);
    for _ in 0..numbers.below(5) {
        let body = expression_text(alloc, numbers)?;
        let statement = one_round(alloc, &STATEMENTS, body.as_str(), numbers)?;
        text.push_str(statement.as_str())?;
    }
    Ok(text)
}

/// A canonical text of a pipe.
fn pipe_text(alloc: Global, numbers: &mut Numbers) -> Result<String, NoMemory> {
    let ty = type_text(alloc, numbers)?;
    let stages = numbers.next();
    Ok(format!(in alloc; "esi 1;\npipe {ty} stages {stages};\n")?)
}

/// A canonical text of a design.
pub fn design_text(alloc: Global, numbers: &mut Numbers) -> Result<String, NoMemory> {
    if numbers.below(8) == 0 {
        return pipe_text(alloc, numbers);
    }
    let mut text = String::from_str(alloc, "esi 1;\n")?;
    for _ in 0..numbers.below(4) {
        let body = body_text(alloc, numbers)?;
        let declaration = one_round(alloc, &DECLARATIONS, body.as_str(), numbers)?;
        text.push_str(declaration.as_str())?;
    }
    text.push_str("top t {\n")?;
    if numbers.coin() {
        text.push_str("implement s;\n")?;
    }
    text.push_str(body_text(alloc, numbers)?.as_str())?;
    text.push_str("}\n")?;
    Ok(text)
}

/// The same tokens with other blanks and comments between them.
pub fn with_other_gaps(
    alloc: Global,
    text: &str,
    numbers: &mut Numbers,
) -> Result<String, NoMemory> {
    let mut out = String::new(alloc);
    for octet in text.bytes() {
        let is_sign = octet.is_ascii_punctuation() && octet != b'_';
        if octet == b' ' || octet == b'\n' {
            out.push_str(gap(numbers))?;
        } else if is_sign && numbers.coin() {
            out.push_str(gap(numbers))?;
            out.push(char::from(octet))?;
            out.push_str(gap(numbers))?;
        } else {
            out.push(char::from(octet))?;
        }
    }
    Ok(out)
}

/// Blanks and comments.
fn gap(numbers: &mut Numbers) -> &'static str {
    match numbers.below(6) {
        0 => "\n",
        1 => "\t ",
        2 => " // a; comment { 1 \n",
        3 => "\r\n",
        4 => "//\n//\n",
        _ => " ",
    }
}
