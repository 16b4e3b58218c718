//! The readers of one token, one after the other: `READERS TEXT`, with commas between the readers.

use crate::escapes::{add_octets, add_offset, add_part, octets_of};
use crate::tokens::class_word;
use design_grammar::reading::{begin, count, expect, name, number, operator, type_word};
use design_grammar::{Kind, TokenStop, is_same, kind_of};
use design_lex::Cursor;
use esi_base::{NoMemory, Stop};
use std::alloc::Global;

/// What each reader answers. The first refusal ends it: its number, where it is reported, and where the
/// cursor stands then.
pub fn answer(alloc: Global, text: &str) -> Result<Option<String>, NoMemory> {
    let (readers, text) = text.split_once(" ").unwrap_or((text, ""));
    let Some(octets) = octets_of(alloc, text)? else {
        return Ok(None);
    };
    let mut out = String::new(alloc);
    let mut cursor = Cursor::new(octets.as_slice());
    for reader in readers.split(",") {
        match read(alloc, &mut cursor, reader)? {
            Ok(Some(part)) => add_part(&mut out, part.as_str())?,
            Ok(None) => return Ok(None),
            Err(stop) => {
                add_refusal(alloc, &mut out, stop)?;
                add_part(&mut out, "cursor")?;
                add_offset(alloc, &mut out, cursor.token_begin())?;
                return Ok(Some(out));
            }
        }
    }
    if cursor.is_at_end() {
        add_part(&mut out, "end")?;
    }
    Ok(Some(out))
}

/// Adds a refusal's number and where it is reported.
pub fn add_refusal(alloc: Global, out: &mut String, stop: TokenStop) -> Result<(), NoMemory> {
    match stop {
        Stop::Refused(refusal) => {
            let number = refusal.number;
            add_part(out, format!(in alloc; "{number}")?.as_str())?;
            add_offset(alloc, out, refusal.at)
        }
        Stop::NoMemory => Err(NoMemory),
    }
}

/// What a reader answers: a text or its refusal; None where it is no reader.
type Answer = Result<Option<String>, TokenStop>;

/// What one reader answers.
fn read(alloc: Global, cursor: &mut Cursor<'_>, reader: &str) -> Result<Answer, NoMemory> {
    match reader {
        "name" => name_text(alloc, cursor),
        "count" => count_text(alloc, cursor),
        "number" => number_text(alloc, cursor),
        "type-word" => type_word_text(alloc, cursor),
        _ => read_kind(alloc, cursor, reader),
    }
}

fn name_text(alloc: Global, cursor: &mut Cursor<'_>) -> Result<Answer, NoMemory> {
    match name(cursor, alloc) {
        Ok((octets, at)) => Ok(Ok(Some(named(alloc, octets.as_slice(), at)?))),
        Err(stop) => Ok(Err(stop)),
    }
}

fn count_text(alloc: Global, cursor: &mut Cursor<'_>) -> Result<Answer, NoMemory> {
    match count(cursor) {
        Ok(count) => Ok(Ok(Some(format!(in alloc; "{count}")?))),
        Err(stop) => Ok(Err(stop)),
    }
}

fn number_text(alloc: Global, cursor: &mut Cursor<'_>) -> Result<Answer, NoMemory> {
    match number(cursor) {
        Ok((value, at)) => Ok(Ok(Some(format!(in alloc; "{value}@{at}")?))),
        Err(stop) => Ok(Err(stop)),
    }
}

fn type_word_text(alloc: Global, cursor: &mut Cursor<'_>) -> Result<Answer, NoMemory> {
    match type_word(cursor) {
        Ok(((class, width), end)) => {
            let class = class_word(class);
            Ok(Ok(Some(format!(in alloc; "{class}:{width}..{end}")?)))
        }
        Err(stop) => Ok(Err(stop)),
    }
}

/// What a reader of one kind answers: `expect:comma`, `begin:name`, `operator:add`, `kind:lit`.
fn read_kind(alloc: Global, cursor: &mut Cursor<'_>, reader: &str) -> Result<Answer, NoMemory> {
    let Some((reader, kind)) = reader.split_once(":") else {
        return Ok(Ok(None));
    };
    let Some(kind) = kind_named(kind) else {
        return Ok(Ok(None));
    };
    match reader {
        "expect" => expect_text(alloc, cursor, kind),
        "begin" => begin_text(alloc, cursor, kind),
        "kind" => kind_text(alloc, cursor, kind),
        "operator" => operator_text(alloc, cursor, kind),
        _ => Ok(Ok(None)),
    }
}

fn expect_text(alloc: Global, cursor: &mut Cursor<'_>, kind: Kind) -> Result<Answer, NoMemory> {
    match expect(cursor, kind) {
        Ok(end) => Ok(Ok(Some(format!(in alloc; "..{end}")?))),
        Err(stop) => Ok(Err(stop)),
    }
}

fn begin_text(alloc: Global, cursor: &mut Cursor<'_>, kind: Kind) -> Result<Answer, NoMemory> {
    match begin(cursor, kind) {
        Ok(at) => Ok(Ok(Some(format!(in alloc; "@{at}")?))),
        Err(stop) => Ok(Err(stop)),
    }
}

fn kind_text(alloc: Global, cursor: &Cursor<'_>, kind: Kind) -> Result<Answer, NoMemory> {
    let answer = if is_same(kind_of(cursor.peek()), kind) {
        "yes"
    } else {
        "no"
    };
    Ok(Ok(Some(String::from_str(alloc, answer)?)))
}

fn operator_text(alloc: Global, cursor: &mut Cursor<'_>, kind: Kind) -> Result<Answer, NoMemory> {
    match operator(cursor, kind) {
        Ok((word, at)) => Ok(Ok(Some(named(alloc, word.octets(), at)?))),
        Err(stop) => Ok(Err(stop)),
    }
}

/// A name and the offset of its first octet.
fn named(alloc: Global, octets: &[u8], at: usize) -> Result<String, NoMemory> {
    let mut out = String::new(alloc);
    add_octets(&mut out, octets)?;
    out.push_str(format!(in alloc; "@{at}")?.as_str())?;
    Ok(out)
}

/// The words of a case for kinds.
const KINDS: [(&str, Kind); 23] = [
    ("name", Kind::Name),
    ("version", Kind::One),
    ("count", Kind::Small),
    ("number", Kind::Great),
    ("comma", Kind::Comma),
    ("less", Kind::Less),
    ("pipe", Kind::Pipe),
    ("stages", Kind::Stages),
    ("lit", Kind::Lit),
    ("make", Kind::Make),
    ("cast", Kind::Cast),
    ("zext", Kind::Zext),
    ("slice", Kind::Slice),
    ("not", Kind::Not),
    ("and", Kind::And),
    ("or", Kind::Or),
    ("xor", Kind::Xor),
    ("add", Kind::Add),
    ("sub", Kind::Sub),
    ("eq", Kind::Eq),
    ("lt", Kind::Lt),
    ("cat", Kind::Cat),
    ("mux", Kind::Mux),
];

/// The kind of a word of a case.
fn kind_named(word: &str) -> Option<Kind> {
    for entry in &KINDS {
        if entry.0 == word {
            return Some(entry.1);
        }
    }
    None
}
