//! Names and numbers with the offsets of their first octets: `READERS TEXT`.

use crate::cursor_reading::add_refusal;
use crate::escapes::{add_octets, add_part, octets_of};
use design_expressions::{next_name, next_number};
use design_grammar::TokenStop;
use design_lex::Cursor;
use esi_base::NoMemory;
use std::alloc::Global;

/// What each reader answers, a refusal too; the next one reads on where the cursor stands then.
pub fn answer(alloc: Global, text: &str) -> Result<Option<String>, NoMemory> {
    let (readers, text) = text.split_once(" ").unwrap_or((text, ""));
    let Some(octets) = octets_of(alloc, text)? else {
        return Ok(None);
    };
    let mut out = String::new(alloc);
    let mut cursor = Cursor::new(octets.as_slice());
    for reader in readers.split(",") {
        match read(alloc, &mut cursor, reader == "number")? {
            Ok(part) => add_part(&mut out, part.as_str())?,
            Err(stop) => add_refusal(alloc, &mut out, stop)?,
        }
    }
    Ok(Some(out))
}

/// A number or a name, with its offset.
fn read(
    alloc: Global,
    cursor: &mut Cursor<'_>,
    is_number: bool,
) -> Result<Result<String, TokenStop>, NoMemory> {
    if is_number {
        return match next_number(cursor) {
            Ok(number) => {
                let value = number.value;
                let at = number.at;
                Ok(Ok(format!(in alloc; "{value}@{at}")?))
            }
            Err(stop) => Ok(Err(stop)),
        };
    }
    match next_name(cursor, alloc) {
        Ok(name) => {
            let mut out = String::new(alloc);
            add_octets(&mut out, name.octets.as_slice())?;
            let at = name.at;
            out.push_str(format!(in alloc; "@{at}")?.as_str())?;
            Ok(Ok(out))
        }
        Err(stop) => Ok(Err(stop)),
    }
}
