//! Random header blocks: each representation, with a model of the table beside them.

use crate::table_model::{TableModel, static_entry};
use crate::{header_blocks, header_lists};
use case_words::Numbers;
use esi_base::{List, NoMemory, Octets};
use hpack::{Decoder, Encoder, Header, Headers};
use hpack_huffman::huff_encode;
use octet_texts::random_octets;
use std::alloc::Global;

/// How many entries the static table has.
const STATIC_ENTRIES: u32 = 61;

/// Whether 1 to 8 random blocks are read, by one decoder, as the model has them.
pub fn blocks_come_back(alloc: Global, numbers: &mut Numbers) -> Result<bool, NoMemory> {
    let mut decoder = Decoder::new(alloc)?;
    let mut table = TableModel::new(alloc);
    let mut same = true;
    for _ in 0..numbers.below(8) + 1 {
        let block = Block::random(alloc, numbers, &mut table)?;
        let comes_back = is_read_as(
            alloc,
            &mut decoder,
            block.octets.as_slice(),
            block.headers.as_slice(),
        )?;
        same = same && comes_back;
    }
    Ok(same)
}

/// Whether a block is read as these headers.
fn is_read_as(
    alloc: Global,
    decoder: &mut Decoder,
    block: &[u8],
    headers: &[Header],
) -> Result<bool, NoMemory> {
    let due = header_blocks::of_headers(alloc, headers)?;
    let read = header_blocks::headers_of(alloc, decoder, block)?;
    Ok(read.as_str() == due.as_str())
}

/// Whether 1 to 4 random header lists are read, by one decoder, as one encoder wrote them.
pub fn lists_come_back(alloc: Global, numbers: &mut Numbers) -> Result<bool, NoMemory> {
    let mut encoder = Encoder::new(alloc)?;
    let mut decoder = Decoder::new(alloc)?;
    let mut same = true;
    for _ in 0..numbers.below(4) + 1 {
        let headers = random_headers(alloc, numbers)?;
        let comes_back = list_comes_back(alloc, &mut encoder, &mut decoder, &headers)?;
        encoder.limit(numbers.next());
        same = same && comes_back;
    }
    Ok(same)
}

/// Whether a header list is read as it was written.
fn list_comes_back(
    alloc: Global,
    encoder: &mut Encoder,
    decoder: &mut Decoder,
    headers: &Headers,
) -> Result<bool, NoMemory> {
    let mut out = Octets::new(alloc);
    let written = header_lists::write(encoder, headers, &mut out)?;
    Ok(is_read_as(alloc, decoder, out.as_slice(), headers.as_slice())? && written)
}

/// 0 to 7 random headers.
fn random_headers(alloc: Global, numbers: &mut Numbers) -> Result<Headers, NoMemory> {
    let mut headers = List::new(alloc);
    for _ in 0..numbers.below(8) {
        headers.add(random_header(alloc, numbers)?)?;
    }
    Ok(headers)
}

/// A random header.
fn random_header(alloc: Global, numbers: &mut Numbers) -> Result<Header, NoMemory> {
    let name = random_octets(alloc, numbers, 24)?;
    let bound = if numbers.below(10) == 0 { 600 } else { 30 };
    let value = random_octets(alloc, numbers, bound)?;
    Ok(Header { name, value })
}

/// A block that is written, and the headers that it has.
#[derive(Drop)]
struct Block {
    octets: Octets,
    headers: Headers,
}

impl Block {
    /// A block of no octets.
    fn new(alloc: Global) -> Block {
        Block {
            octets: Octets::new(alloc),
            headers: List::new(alloc),
        }
    }

    /// A block of 0 to 2 size updates and 0 to 9 random fields.
    fn random(
        alloc: Global,
        numbers: &mut Numbers,
        table: &mut TableModel,
    ) -> Result<Block, NoMemory> {
        let mut block = Block::new(alloc);
        block.add_updates(numbers, table)?;
        for _ in 0..numbers.below(10) {
            block.add_field(alloc, numbers, table)?;
        }
        Ok(block)
    }

    /// Adds 0 to 2 size updates, seldom some.
    fn add_updates(
        &mut self,
        numbers: &mut Numbers,
        table: &mut TableModel,
    ) -> Result<(), NoMemory> {
        if numbers.below(4) != 0 {
            return Ok(());
        }
        for _ in 0..numbers.below(3) {
            let limit = match numbers.below(4) {
                0 => 0,
                1 => 4_096,
                _ => numbers.below(300),
            };
            add_integer(&mut self.octets, 0x20, 5, limit)?;
            table.resize(limit as usize);
        }
        Ok(())
    }

    /// Adds a field in a random representation.
    fn add_field(
        &mut self,
        alloc: Global,
        numbers: &mut Numbers,
        table: &mut TableModel,
    ) -> Result<(), NoMemory> {
        match numbers.below(6) {
            0 | 1 => self.add_indexed(alloc, numbers, table),
            2 => self.add_literal(alloc, numbers, table, 0x00, 4),
            3 => self.add_literal(alloc, numbers, table, 0x10, 4),
            _ => {
                self.add_literal(alloc, numbers, table, 0x40, 6)?;
                match self.headers.as_slice() {
                    [.., last] => table.insert(alloc, last),
                    [] => Ok(()),
                }
            }
        }
    }

    /// Adds the index of a random entry.
    fn add_indexed(
        &mut self,
        alloc: Global,
        numbers: &mut Numbers,
        table: &TableModel,
    ) -> Result<(), NoMemory> {
        let index = random_index(numbers, table);
        let Some(header) = entry(alloc, table, index)? else {
            return Ok(());
        };
        add_integer(&mut self.octets, 0x80, 7, index)?;
        self.headers.add(header)
    }

    /// Adds a literal, whose name is that of an entry or a string.
    fn add_literal(
        &mut self,
        alloc: Global,
        numbers: &mut Numbers,
        table: &TableModel,
        kind: u8,
        bits: u32,
    ) -> Result<(), NoMemory> {
        let mut header = random_header(alloc, numbers)?;
        let index = random_index(numbers, table);
        let named = if numbers.coin() {
            entry(alloc, table, index)?
        } else {
            None
        };
        match named {
            Some(entry) => {
                header.name = entry.name;
                add_integer(&mut self.octets, kind, bits, index)?;
            }
            None => {
                add_integer(&mut self.octets, kind, bits, 0)?;
                add_string(alloc, numbers, &mut self.octets, header.name.as_slice())?;
            }
        }
        add_string(alloc, numbers, &mut self.octets, header.value.as_slice())?;
        self.headers.add(header)
    }
}

/// The index of an entry, of the static table or of the dynamic one after it.
fn random_index(numbers: &mut Numbers, table: &TableModel) -> u32 {
    let left = table.len().min(1_000) as u32;
    if left > 0 && numbers.coin() {
        numbers.below(left) + STATIC_ENTRIES + 1
    } else {
        numbers.below(STATIC_ENTRIES) + 1
    }
}

/// A copy of the entry at an index.
fn entry(alloc: Global, table: &TableModel, index: u32) -> Result<Option<Header>, NoMemory> {
    if index <= STATIC_ENTRIES {
        return static_entry(alloc, (index % 128) as u8);
    }
    match table.get((index - STATIC_ENTRIES - 1) as usize) {
        Some(header) => {
            let copy = header_lists::header(
                alloc,
                header.name.as_slice(),
                header.value.as_slice(),
            )?;
            Ok(Some(copy))
        }
        None => Ok(None),
    }
}

/// Adds a string, as it is or as its Huffman code.
fn add_string(
    alloc: Global,
    numbers: &mut Numbers,
    out: &mut Octets,
    text: &[u8],
) -> Result<(), NoMemory> {
    if numbers.coin() {
        add_integer(out, 0, 7, length(text))?;
        out.push_all(text)?;
        return Ok(());
    }
    let mut code = Octets::new(alloc);
    huff_encode(text, &mut code)?;
    add_integer(out, 0x80, 7, length(code.as_slice()))?;
    out.push_all(code.as_slice())?;
    Ok(())
}

/// How many octets there are.
fn length(octets: &[u8]) -> u32 {
    octets.len().min(4_294_967_295) as u32
}

/// Adds an integer in a prefix of so many bits, 1 to 8, after those that begin its first octet.
fn add_integer(out: &mut Octets, pattern: u8, bits: u32, value: u32) -> Result<(), NoMemory> {
    let full = 255u8 >> 8u32.saturating_sub(bits).min(7);
    if value < u32::from(full) {
        return out.add(pattern.wrapping_add(value as u8));
    }
    out.add(pattern.wrapping_add(full))?;
    let mut rest = value - u32::from(full);
    for _ in 0..5 {
        if rest < 128 {
            return out.add(rest as u8);
        }
        out.add(128 + (rest % 128) as u8)?;
        rest /= 128;
    }
    Ok(())
}
