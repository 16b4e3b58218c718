//! Random values of random types, unpacked and packed again.
ghost use Rattle.channel_types.specs.Types.{IsGoodType};

use crate::random_text::type_text;
use crate::types::type_of;
use crate::values::octets_of_word;
use bit_packing::{Unpacked, fits, from_octets, is_packing, pack, unpack};
use case_words::Numbers;
use esi_base::{NoMemory, Word};
use esi_types::EsiType;
use std::alloc::Global;

/// `SEED COUNT`: random octets for so many random types. The word that they are is unpacked and packed
/// again; where a bit of a void is 1 they are refused, and the word of zeros is taken.
pub fn answer(alloc: Global, text: &str) -> Result<Option<String>, NoMemory> {
    let Some((seed, count)) = text.split_once(" ") else {
        return Ok(None);
    };
    let mut numbers = Numbers::new(seed.parse::<u32>().unwrap_or(0));
    let mut same: u32 = 0;
    let mut differing: u32 = 0;
    for _ in 0..count.parse::<u32>().unwrap_or(0) {
        let text = type_text(alloc, &mut numbers)?;
        if comes_back(alloc, text.as_str(), &mut numbers)? {
            same = same.saturating_add(1);
        } else {
            differing = differing.saturating_add(1);
        }
    }
    Ok(Some(format!(in alloc; "{same} values, {differing} packed otherwise")?))
}

/// Whether a random value of a type comes back.
fn comes_back(alloc: Global, text: &str, numbers: &mut Numbers) -> Result<bool, NoMemory> {
    let Some(ty) = type_of(alloc, text)? else {
        return Ok(false);
    };
    let octets = random_octets(alloc, ty.width(), numbers)?;
    match from_octets(octets.as_slice(), &ty) {
        Ok(word) => packs_again(alloc, &word, octets.as_slice(), &ty),
        Err(Unpacked::VoidBit) => {
            let zeros = vec![in alloc; 0; octets.len()]?;
            match from_octets(zeros.as_slice(), &ty) {
                Ok(word) => packs_again(alloc, &word, zeros.as_slice(), &ty),
                Err(_) => Ok(false),
            }
        }
        Err(Unpacked::Count | Unpacked::Spare) => Ok(false),
    }
}

/// Whether a word is unpacked, and packed again, to the same word and octets.
fn packs_again(alloc: Global, word: &Word, octets: &[u8], ty: &EsiType) -> Result<bool, NoMemory>
    requires { IsGoodType ty.now }
{
    if !is_packing(word, ty) {
        return Ok(false);
    }
    let value = unpack(alloc, word, ty)?;
    if !fits(&value, ty) {
        return Ok(false);
    }
    let again = pack(&value, ty);
    let written = octets_of_word(alloc, &again)?;
    Ok(again == *word && written.as_slice() == octets)
}

/// Random octets for so many bits, with the bits past them 0; every other time all octets are 0 but one.
fn random_octets(alloc: Global, width: u32, numbers: &mut Numbers) -> Result<Vec<u8>, NoMemory> {
    let mut octets = Vec::new(alloc);
    let is_sparse = numbers.coin();
    let mut left = width;
    for _ in 0..width {
        if left == 0 {
            break;
        }
        let bits = left.min(8);
        let [octet, _, _, _] = numbers.next().to_be_bytes();
        if is_sparse && numbers.below(4) != 0 {
            octets.push(0)?;
        } else {
            octets.push(octet >> (8 - bits))?;
        }
        left -= bits;
    }
    Ok(octets)
}
