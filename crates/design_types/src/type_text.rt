//! The type of a text: read at an offset, of a whole text, and by a cursor.
ghost use Rattle.std.specs.Prelude.{◌≡◌, ◌≤◌, ◌<◌, ◌-◌, ◌^◌, length, IfOk};
ghost use Rattle.esi_base.specs.Answers.{Reads, IfRefused};
ghost use Rattle.design_lex.specs.Spellings.{AreSpelled};
ghost use Rattle.design_grammar.specs.Grammar.{AnswersAt, StandsAt};
ghost use Rattle.channel_types.specs.Types.{IsGoodType};
ghost use Rattle.channel_types.specs.Text.{text_of};
ghost use Rattle.channel_types.specs.TypeGrammar.{Found};
ghost use Rattle.channel_types.specs.TypeAnswers as answers;
ghost use Rattle.channel_types.specs.TypeAnswers.{IsTypeAt, IsTypeText, StopsToBeType};
ghost use Rattle.design_types.specs.TypeReading as reading;

use crate::reading::type_at;
use channel_types::{EsiType, OPEN_TYPES};
use design_grammar::reading::refuse;
use design_grammar::{Kind, TokenRefusal, TokenStop};
use design_lex::Cursor;
use esi_base::{LONGEST_TEXT, Place, Refusal, Stop};
use std::alloc::Global;

/// The place of an offset, or of the text's end.
fn place_in(text: &[u8], at: Option<usize>) -> Place
    requires { length text.now < 2 ^ 32 - 1 }
    ensures { result ≡ answers.place_in text.now at }
{
    // Offsets lie within the text; the least of both says so to the call.
    Place::at_offset(text, at.unwrap_or(text.len()).min(text.len()))
}

/// The refusal of a token, reported by line and column.
fn refusal_at(text: &[u8], refusal: TokenRefusal) -> Refusal
    requires { length text.now < 2 ^ 32 - 1 }
    ensures { result ≡ answers.refusal_at text.now refusal }
{
    Refusal {
        number: refusal.number,
        place: place_in(text, refusal.at),
    }
}

/// Reads the type that comes next, and goes past it: the type, and the offset after its last octet. It
/// serves the readers of longer texts.
pub fn next_type(cursor: &mut Cursor<'_>, alloc: Global) -> Result<(EsiType, usize), TokenStop>
    ensures reads { AnswersAt (reading.type_at OPEN_TYPES cursor.old) result cursor.new }

    // A rule of tokens or of the grammar is broken by the token at which the cursor stands then.
    ensures stands { StandsAt result cursor.new }

    // What is read is good, where the lexemes are those of a text.
    ensures good { AreSpelled cursor.old → IfOk result (λ found. IsGoodType found.0) }
{
    type_at(cursor, alloc, OPEN_TYPES)
}

/// The type that stands at an offset, and the offset after it.
fn found_at(alloc: Global, text: &[u8], at: usize) -> Result<(EsiType, usize), TokenStop>
    requires { at ≤ length text.now }
    ensures { Reads (reading.found_at text.now at) result }
{
    let mut cursor = Cursor::from_offset(text, at);
    next_type(&mut cursor, alloc)
}

/// The type of a whole text, and the offset after it.
fn whole(alloc: Global, text: &[u8]) -> Result<(EsiType, usize), TokenStop>
    ensures { Reads (reading.whole_text text.now) result }
{
    let mut cursor = Cursor::new(text);
    let found = next_type(&mut cursor, alloc)?;
    if !cursor.is_at_end() {
        return Err(refuse(&cursor, Kind::Nothing));
    }
    Ok(found)
}

/// Reads one type of a text, from an offset on: the type, and the offset after its last octet. What
/// stands after it is not looked at. A text has at most `LONGEST_TEXT` octets.
///
/// It is refused at the first token with which no type goes on, at its first octet or at the end:
///
/// - 201 an octet that begins no token, 202 a word above 64 octets, 203 a bad number, or an array's
///   count above 2^32 - 1;
/// - 206 the end of the text, where more is needed;
/// - 207 a keyword or a type word where a field's name is due;
/// - 205 any other token;
///
/// or where a limit is broken, the first of them, innermost first:
///
/// - 103 at the first token of a 17th type inside one another;
/// - 101 at the first octet of a type of width 0 or above 1,024 bits, checked when it was read;
/// - 102 at the first octet of a struct with two fields of one name, checked after its width.
pub fn read_type(alloc: Global, text: &[u8], at: usize) -> Result<(EsiType, usize), Stop>
    requires within { at ≤ length text.now }
    requires small { length text.now ≤ LONGEST_TEXT }
    // The answer is what the text means there.
    ensures reads { Reads (reading.type_from text.now at) result }

    // What is read stands there, and what stands there is read, unless the call runs out of memory.
    ensures found { IfOk result (IsTypeAt text.now at) }
    ensures only { (found : Found) → IsTypeAt text.now at found → Reads (Ok found) result }

    // All else is refused where it stops to be a type.
    ensures refused { IfRefused result (StopsToBeType text.now at) }

    // What is read is good.
    ensures good { IfOk result (λ found. IsGoodType found.0) }
{
    match found_at(alloc, text, at) {
        Ok(found) => Ok(found),
        Err(Stop::Refused(refusal)) => Err(Stop::Refused(refusal_at(text, refusal))),
        Err(Stop::NoMemory) => Err(Stop::NoMemory),
    }
}

/// Reads a whole text as a type. Refusals are those of `read_type`, and 205 (or 201, 202, 203) at a
/// token after the type. A text has at most `LONGEST_TEXT` octets.
pub fn parse_type(alloc: Global, text: &[u8]) -> Result<EsiType, Stop>
    requires { length text.now ≤ LONGEST_TEXT }
    // The answer is what the text means.
    ensures reads { Reads (reading.type_of_text text.now) result }

    // What is read is the text's type, and each text of a type is read, unless the call runs out of memory.
    ensures found { IfOk result (IsTypeText text.now) }
    ensures only { (ty : EsiType) → IsTypeText text.now ty → Reads (Ok ty) result }

    // All else is refused where it stops to be the text of a type.
    ensures refused { IfRefused result (StopsToBeType text.now 0) }

    // What is read is good.
    ensures good { IfOk result IsGoodType }

    // The printed text of a good type is read as that type again.
    ensures again { (ty : EsiType) → IsGoodType ty → text.now ≡ text_of ty → Reads (Ok ty) result }
{
    match whole(alloc, text) {
        Ok((ty, _)) => Ok(ty),
        Err(Stop::Refused(refusal)) => Err(Stop::Refused(refusal_at(text, refusal))),
        Err(Stop::NoMemory) => Err(Stop::NoMemory),
    }
}
