//! Types: read, printed, copied and compared.
ghost use Rattle.std.specs.Prelude.{◌≤◌, length};
ghost use Rattle.channel_types.specs.Types.{IsGoodType};

use esi_base::LONGEST_TEXT;
use esi_types::{EsiType, parse_type};
use std::alloc::Global;

/// Reads a type so often, and gives its width in bits.
pub fn read(alloc: Global, rounds: u32, text: &[u8]) -> Option<usize>
    requires { length text.now ≤ LONGEST_TEXT }
{
    let mut width = parse_type(alloc, text).ok()?.width();
    for _ in 0..rounds {
        width = parse_type(alloc, text).ok()?.width();
    }
    Some(width as usize)
}

/// Reads a type, prints it so often, and gives the octets printed.
pub fn print(alloc: Global, rounds: u32, text: &[u8]) -> Option<usize>
    requires { length text.now ≤ LONGEST_TEXT }
{
    let ty = parse_type(alloc, text).ok()?;
    print_again(alloc, rounds, &ty)
}

/// Prints a type so often, and gives the octets printed.
fn print_again(alloc: Global, rounds: u32, ty: &EsiType) -> Option<usize>
    requires { IsGoodType ty.now }
{
    let mut printed = 0;
    for _ in 0..rounds {
        printed = ty.print_type(alloc).ok()?.len();
    }
    Some(printed)
}

/// Reads a type, copies it so often and compares it with the copy, and gives its width in bits; None
/// where a copy is not the same.
pub fn copy(alloc: Global, rounds: u32, text: &[u8]) -> Option<usize>
    requires { length text.now ≤ LONGEST_TEXT }
{
    let ty = parse_type(alloc, text).ok()?;
    copy_again(alloc, rounds, &ty)
}

/// Copies a type so often and compares it with the copy, and gives its width in bits; None where a copy
/// is not the same.
fn copy_again(alloc: Global, rounds: u32, ty: &EsiType) -> Option<usize>
    requires { IsGoodType ty.now }
{
    for _ in 0..rounds {
        let copy = ty.copy(alloc).ok()?;
        if !ty.same(&copy) {
            return None;
        }
    }
    Some(ty.width() as usize)
}
