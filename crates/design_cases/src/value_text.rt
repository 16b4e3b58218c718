//! Values as a case writes them, in parts with blanks between them: `5:8` is the number 5 of 8 bits, `void`
//! its value, `( .. )` a struct and `[ .. ]` an array.

use bit_packing::Value;
use esi_base::{NoMemory, Word};
use sqlite_items::Items;
use std::alloc::Global;

/// The widest number of a case, in bits.
const WIDEST_NUMBER: u32 = 100;

/// A struct or an array whose end was not yet seen.
#[derive(Drop)]
struct Open {
    is_struct: bool,
    values: Items<Value>,
}

/// The value of a text; None where it is none.
pub fn value_of(alloc: Global, text: &str) -> Result<Option<Value>, NoMemory> {
    let mut open: Vec<Open> = Vec::new(alloc);
    let mut last = None;
    for part in text.split_whitespace() {
        let value = match part {
            "(" | "[" => {
                open.push(Open {
                    is_struct: part == "(",
                    values: Items::new(alloc),
                })?;
                continue;
            }
            ")" | "]" => {
                let Some(closed) = open.pop() else {
                    return Ok(None);
                };
                if closed.is_struct {
                    Value::Struct(closed.values)
                } else {
                    Value::Array(closed.values)
                }
            }
            "void" => Value::Void,
            _ => {
                let Some(number) = number_of(part) else {
                    return Ok(None);
                };
                Value::Number(number)
            }
        };
        match open.last_mut() {
            Some(outer) => outer.values.push(value)?,
            None => last = Some(value),
        }
    }
    Ok(last)
}

/// The word of a number, `VALUE:WIDTH`.
pub fn number_of(text: &str) -> Option<Word> {
    let (value, width) = text.split_once(":")?;
    let value = value.parse::<u128>().ok()?;
    let width = width.parse::<u32>().ok()?;
    if width == 0 || width > WIDEST_NUMBER || value >= 1 << width {
        return None;
    }
    Some(Word::from_u128(width, value))
}

/// A word of at most 128 bits as `VALUE:WIDTH`; of a wider one the width alone.
pub fn word_text(alloc: Global, word: &Word) -> Result<String, NoMemory> {
    let width = word.width();
    let mut value: u128 = 0;
    if width > 128 {
        return Ok(format!(in alloc; "{width} bits")?);
    }
    for at in (0..width).rev() {
        value = value.wrapping_mul(2).wrapping_add(u128::from(word.bit(at)));
    }
    Ok(format!(in alloc; "{value}:{width}")?)
}
