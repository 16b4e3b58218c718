//! Random octets.

use case_words::Numbers;
use esi_base::{NoMemory, Octets};
use std::alloc::Global;

/// Fewer octets than a bound, any or all of them letters.
pub fn random_octets(alloc: Global, numbers: &mut Numbers, bound: u32) -> Result<Octets, NoMemory> {
    if numbers.coin() {
        return random_letters(alloc, numbers, bound);
    }
    let mut octets = Octets::new(alloc);
    for _ in 0..numbers.next() % bound.max(1) {
        octets.add((numbers.next() % 256) as u8)?;
    }
    Ok(octets)
}

/// Fewer letters than a bound.
pub fn random_letters(
    alloc: Global,
    numbers: &mut Numbers,
    bound: u32,
) -> Result<Octets, NoMemory> {
    let mut octets = Octets::new(alloc);
    for _ in 0..numbers.next() % bound.max(1) {
        octets.add((numbers.next() % 26) as u8 + b'a')?;
    }
    Ok(octets)
}
