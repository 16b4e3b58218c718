//! The Huffman code of header strings.

use case_words::Numbers;
use esi_base::{NoMemory, Octets, Stop};
use hpack_huffman::{huff_decode, huff_encode, huff_len};
use octet_texts::random_octets;
use std::alloc::Global;

/// What a code or a text is added after.
const BEFORE: &[u8] = b"\x07";

/// How many bits the longest word has.
const LONGEST: u32 = 30;

/// The code of a text, its length by `huff_len`, and how it is read where that is another text. None
/// where the text is no octets.
pub fn written(alloc: Global, text: &str) -> Result<Option<String>, NoMemory> {
    let Some(text) = octet_texts::octets_of(alloc, text)? else {
        return Ok(None);
    };
    let mut code = Octets::from_slice(alloc, BEFORE)?;
    huff_encode(text.as_slice(), &mut code)?;
    let Some(code) = code.as_slice().strip_prefix(BEFORE) else {
        return Ok(Some(String::from_str(alloc, "the octets before it changed")?));
    };
    let digits = octet_texts::digits_of(alloc, code)?;
    let count = length(text.as_slice());
    let mut answer = format!(in alloc; "{digits}, {count} octets")?;
    let due = octet_texts::text_of(alloc, text.as_slice())?;
    let read = text_of_code(alloc, code)?;
    if read.as_str() != due.as_str() {
        answer.push_str(", but read as ")?;
        answer.push_str(read.as_str())?;
    }
    Ok(Some(answer))
}

/// The length of the code of a text.
fn length(text: &[u8]) -> usize {
    if text.len() > 4_294_967_295 {
        return 0;
    }
    huff_len(text)
}

/// The text of a code, or the number of the rule that it breaks. None where the text is no octets.
pub fn read(alloc: Global, text: &str) -> Result<Option<String>, NoMemory> {
    match octet_texts::octets_of(alloc, text)? {
        Some(code) => Ok(Some(text_of_code(alloc, code.as_slice())?)),
        None => Ok(None),
    }
}

/// The text of a code, added after other octets, or the number of the rule that it breaks.
pub fn text_of_code(alloc: Global, code: &[u8]) -> Result<String, NoMemory> {
    let mut text = Octets::from_slice(alloc, BEFORE)?;
    match huff_decode(code, &mut text) {
        Ok(()) => match text.as_slice().strip_prefix(BEFORE) {
            Some(text) => octet_texts::text_of(alloc, text),
            None => Ok(String::from_str(alloc, "the octets before it changed")?),
        },
        Err(Stop::Refused(rule)) if text.as_slice() == BEFORE => {
            let number = rule.number();
            Ok(format!(in alloc; "refused {number}")?)
        }
        Err(Stop::Refused(_rule)) => Ok(String::from_str(alloc, "refused, and octets are left")?),
        Err(Stop::NoMemory) => Err(NoMemory),
    }
}

/// How much of the code the words of the octets fill: for each of b bits 2 to the 30 - b, as the end of
/// string is a word of 30 bits. Eight times the same octet have as many octets as its word has bits.
pub fn words(alloc: Global) -> Result<Option<String>, NoMemory> {
    let mut sum: u64 = 0;
    for octet in 0..=255 {
        let bits = huff_len(&[octet; 8]).min(64) as u32;
        sum = sum.wrapping_add(1 << LONGEST.saturating_sub(bits));
    }
    Ok(Some(format!(in alloc; "{sum}")?))
}

/// Whether a random text comes back from its Huffman code.
pub fn text_comes_back(alloc: Global, numbers: &mut Numbers) -> Result<bool, NoMemory> {
    let text = random_octets(alloc, numbers, 200)?;
    let mut code = Octets::new(alloc);
    huff_encode(text.as_slice(), &mut code)?;
    let due = octet_texts::text_of(alloc, text.as_slice())?;
    let read = text_of_code(alloc, code.as_slice())?;
    Ok(read.as_str() == due.as_str())
}

/// Whether random octets, where they are the Huffman code of a text, are the code that is written for it.
pub fn code_comes_back(alloc: Global, numbers: &mut Numbers) -> Result<bool, NoMemory> {
    let code = random_octets(alloc, numbers, 12)?;
    let mut text = Octets::new(alloc);
    if huff_decode(code.as_slice(), &mut text).is_err() {
        return Ok(text.is_empty());
    }
    let mut written = Octets::new(alloc);
    huff_encode(text.as_slice(), &mut written)?;
    Ok(written.as_slice() == code.as_slice())
}
