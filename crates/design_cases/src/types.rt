//! Types.
ghost use Rattle.std.specs.Prelude.{IfSome, IfOk};
ghost use Rattle.channel_types.specs.Types.{IsGoodType};

use crate::escapes::{add_octets, octets_of};
use esi_base::{NoMemory, Octets, Stop};
use esi_types::{EsiType, parse_type, read_type};
use std::alloc::Global;

/// The longest text of a type that a case has, in octets.
const LONGEST_TEXT: usize = 1_000_000;

/// The refusal as `101 1:1`.
pub fn refusal_text(alloc: Global, stop: Stop) -> Result<String, NoMemory> {
    match stop {
        Stop::Refused(refusal) => {
            let number = refusal.number;
            let line = refusal.place.line;
            let column = refusal.place.column;
            Ok(format!(in alloc; "{number} {line}:{column}")?)
        }
        Stop::NoMemory => Err(NoMemory),
    }
}

/// The type of a case's text; None where it is none.
pub fn type_of(alloc: Global, text: &str) -> Result<Option<EsiType>, NoMemory>
    ensures { IfOk result (λ found. IfSome found (λ ty. IsGoodType ty)) }
{
    let Some(octets) = octets_of(alloc, text)? else {
        return Ok(None);
    };
    if octets.len() > LONGEST_TEXT {
        return Ok(None);
    }
    match parse_type(alloc, octets.as_slice()) {
        Ok(ty) => Ok(Some(ty)),
        Err(Stop::Refused(_)) => Ok(None),
        Err(Stop::NoMemory) => Err(NoMemory),
    }
}

/// The canonical text of the type that a text is, or its refusal.
pub fn answer(alloc: Global, text: &str) -> Result<Option<String>, NoMemory> {
    let Some(octets) = octets_of(alloc, text)? else {
        return Ok(None);
    };
    if octets.len() > LONGEST_TEXT {
        return Ok(None);
    }
    match parse_type(alloc, octets.as_slice()) {
        Ok(ty) => Ok(Some(printed(alloc, &ty)?)),
        Err(stop) => Ok(Some(refusal_text(alloc, stop)?)),
    }
}

/// The type that stands at an offset, and the offset after it, `AT TEXT`.
pub fn answer_at(alloc: Global, text: &str) -> Result<Option<String>, NoMemory> {
    let Some((at, text)) = text.split_once(" ") else {
        return Ok(None);
    };
    let Some(octets) = octets_of(alloc, text)? else {
        return Ok(None);
    };
    if octets.len() > LONGEST_TEXT {
        return Ok(None);
    }
    let at = at.parse::<usize>().unwrap_or(0).min(octets.len());
    match read_type(alloc, octets.as_slice(), at) {
        Ok((ty, end)) => {
            let ty = printed(alloc, &ty)?;
            Ok(Some(format!(in alloc; "{ty}, {end}")?))
        }
        Err(stop) => Ok(Some(refusal_text(alloc, stop)?)),
    }
}

/// The canonical text of a type.
fn printed(alloc: Global, ty: &EsiType) -> Result<String, NoMemory>
    requires { IsGoodType ty.now }
{
    let text: Octets = ty.print_type(alloc)?;
    let mut out = String::new(alloc);
    add_octets(&mut out, text.as_slice())?;
    Ok(out)
}

/// The width of a type, and its copy's text.
pub fn width(alloc: Global, text: &str) -> Result<Option<String>, NoMemory> {
    let Some(ty) = type_of(alloc, text)? else {
        return Ok(None);
    };
    let width = ty.width();
    let copy = ty.copy(alloc)?;
    let copy = printed(alloc, &copy)?;
    Ok(Some(format!(in alloc; "{width}, {copy}")?))
}

/// Whether two types are the same, `TYPE = TYPE`.
pub fn same(alloc: Global, text: &str) -> Result<Option<String>, NoMemory> {
    let Some((left, right)) = text.split_once(" = ") else {
        return Ok(None);
    };
    let Some(left) = type_of(alloc, left)? else {
        return Ok(None);
    };
    let Some(right) = type_of(alloc, right)? else {
        return Ok(None);
    };
    let answer = if left.same(&right) {
        "same"
    } else {
        "different"
    };
    Ok(Some(String::from_str(alloc, answer)?))
}
