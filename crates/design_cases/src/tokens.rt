//! The tokens of a text.

use crate::escapes::{add_octets, add_part, octets_of};
use design_lex::{Class, Cursor, Token};
use esi_base::NoMemory;
use std::alloc::Global;

/// All tokens of a text.
pub fn answer(alloc: Global, text: &str) -> Result<Option<String>, NoMemory> {
    let Some(octets) = octets_of(alloc, text)? else {
        return Ok(None);
    };
    let mut out = String::new(alloc);
    let mut cursor = Cursor::new(octets.as_slice());
    for _ in 0..octets.len() {
        if cursor.is_at_end() {
            break;
        }
        add_part(&mut out, token_text(alloc, cursor.peek())?.as_str())?;
        cursor.advance();
    }
    Ok(Some(out))
}

/// The tokens from an offset on with their spans, `AT TEXT`.
pub fn spans(alloc: Global, text: &str) -> Result<Option<String>, NoMemory> {
    let Some((at, text)) = text.split_once(" ") else {
        return Ok(None);
    };
    let Some(octets) = octets_of(alloc, text)? else {
        return Ok(None);
    };
    let at = at.parse::<usize>().unwrap_or(0).min(octets.len());
    let mut out = String::new(alloc);
    let mut cursor = Cursor::from_offset(octets.as_slice(), at);
    for _ in 0..octets.len() {
        if let (Some(begin), Some(end)) = (cursor.token_begin(), cursor.token_end()) {
            add_part(&mut out, token_text(alloc, cursor.peek())?.as_str())?;
            add_part(&mut out, format!(in alloc; "{begin}..{end}")?.as_str())?;
        }
        cursor.advance();
    }
    if cursor.is_at_end() && matches!(cursor.peek(), Token::End) {
        add_part(&mut out, "end")?;
    }
    Ok(Some(out))
}

/// A token: its octets; a type word as `Unsigned:8`, a number as `#1`, a faulty token as `!203`.
fn token_text(alloc: Global, token: &Token<'_>) -> Result<String, NoMemory> {
    let mut out = String::new(alloc);
    match token {
        Token::Word(word) => add_octets(&mut out, word.octets())?,
        Token::TypeWord(class, width) => {
            let class = class_word(*class);
            return Ok(format!(in alloc; "{class}:{width}")?);
        }
        Token::Number(number) => return Ok(format!(in alloc; "#{number}")?),
        Token::Sign(octet) => out.push(char::from(*octet))?,
        Token::Faulty(rule) => {
            let number = rule.number();
            return Ok(format!(in alloc; "!{number}")?);
        }
        Token::End => out.push_str("end")?,
    }
    Ok(out)
}

/// The word of a class.
pub fn class_word(class: Class) -> &'static str {
    match class {
        Class::Unsigned => "Unsigned",
        Class::Signed => "Signed",
        Class::Plain => "Plain",
    }
}
