//! What a statement begins with.

use crate::escapes::octets_of;
use design_grammar::kind_of;
use design_lex::Cursor;
use design_statements::begins_statement;
use esi_base::NoMemory;
use std::alloc::Global;

/// Whether a statement begins with the first token of a text.
pub fn begins(alloc: Global, text: &str) -> Result<Option<String>, NoMemory> {
    let Some(octets) = octets_of(alloc, text)? else {
        return Ok(None);
    };
    let cursor = Cursor::new(octets.as_slice());
    let answer = if begins_statement(kind_of(cursor.peek())) {
        "yes"
    } else {
        "no"
    };
    Ok(Some(String::from_str(alloc, answer)?))
}
