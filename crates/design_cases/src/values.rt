//! Values, their words and their octets.
ghost use Rattle.channel_types.specs.Types.{IsGoodType};

use crate::types::type_of;
use crate::value_text::{number_of, value_of, word_text};
use bit_packing::{Value, fits, from_octets, is_packing, pack, to_octets, unpack};
use esi_base::{NoMemory, Word};
use esi_types::EsiType;
use small_text::{push_hex, read_octets};
use std::alloc::Global;

/// `TYPE = VALUE`: the word that the value packs to, and its octets. The value is unpacked again from the
/// word, and the word read again from the octets.
pub fn pack_case(alloc: Global, text: &str) -> Result<Option<String>, NoMemory> {
    let Some((ty, value)) = text.split_once(" = ") else {
        return Ok(None);
    };
    let Some(ty) = type_of(alloc, ty)? else {
        return Ok(None);
    };
    let Some(value) = value_of(alloc, value)? else {
        return Ok(None);
    };
    if !fits(&value, &ty) {
        return Ok(Some(String::from_str(alloc, "does not fit")?));
    }
    let word = pack(&value, &ty);
    let text = word_text(alloc, &word)?;
    let octets = octets_of_word(alloc, &word)?;
    let mut hex = esi_base::Octets::new(alloc);
    push_hex(&mut hex, octets.as_slice())?;
    let hex = crate::escapes::written(alloc, hex.as_slice())?;
    let again = if comes_back(alloc, &value, &word, octets.as_slice(), &ty)? {
        ""
    } else {
        ", and does not come back"
    };
    Ok(Some(format!(in alloc; "{text}, octets {hex}{again}")?))
}

/// Whether a word is a packing of the type whose value is this one, and is read from the octets.
pub fn comes_back(
    alloc: Global,
    value: &Value,
    word: &Word,
    octets: &[u8],
    ty: &EsiType,
) -> Result<bool, NoMemory>
    requires { IsGoodType ty.now }
{
    if !is_packing(word, ty) {
        return Ok(false);
    }
    let again = unpack(alloc, word, ty)?;
    let again = format!(in alloc; "{again:?}")?;
    let value = format!(in alloc; "{value:?}")?;
    let read = from_octets(octets, ty);
    Ok(again.as_str() == value.as_str() && read == Ok(*word))
}

/// The octets of a word.
pub fn octets_of_word(alloc: Global, word: &Word) -> Result<Vec<u8>, NoMemory> {
    let mut octets = vec![in alloc; 0; word.width().div_ceil(8) as usize]?;
    to_octets(word, &mut octets);
    Ok(octets)
}

/// `TYPE = VALUE:WIDTH`: whether the word is a packing of the type.
pub fn is_packing_case(alloc: Global, text: &str) -> Result<Option<String>, NoMemory> {
    let Some((ty, word)) = text.split_once(" = ") else {
        return Ok(None);
    };
    let Some(ty) = type_of(alloc, ty)? else {
        return Ok(None);
    };
    let Some(word) = number_of(word) else {
        return Ok(None);
    };
    let answer = if is_packing(&word, &ty) { "yes" } else { "no" };
    Ok(Some(String::from_str(alloc, answer)?))
}

/// `TYPE = OCTETS`: the word of these octets, or the number of the rule that they break.
pub fn octets_case(alloc: Global, text: &str) -> Result<Option<String>, NoMemory> {
    let Some((ty, octets)) = text.split_once(" =") else {
        return Ok(None);
    };
    let Some(ty) = type_of(alloc, ty)? else {
        return Ok(None);
    };
    let octets = read_octets(alloc, octets.trim().as_bytes())?.unwrap_or(esi_base::Octets::new(
        alloc,
    ));
    match from_octets(octets.as_slice(), &ty) {
        Ok(word) => Ok(Some(word_text(alloc, &word)?)),
        Err(rule) => {
            let number = rule.number();
            Ok(Some(format!(in alloc; "{number}")?))
        }
    }
}
