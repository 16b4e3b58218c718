//! The word of one net of at most 64 bits as a number, given the numbers of its sources' words.
ghost use Rattle.std.specs.Prelude.{◌≡◌, ◌-◌, ◌%◌, ◌^◌, ◌≤◌, All, length};
ghost use Rattle.esi_base.specs.Bits.{number_of};
ghost use Rattle.netlist.specs.Narrow.{IsNarrowNet, number_in};
ghost use Rattle.netlist.specs.Nets.{Fits};
ghost use Rattle.netlist.specs.Plans.{IsWidth};

use crate::net::Net;
use esi_base::Word;

/// How many bits a limb has.
const LIMB_BITS: u32 = 64;

/// The number of the word of a net that stands behind nets of these widths, given the numbers of its
/// sources' words in the order of its fields; the further ones mean nothing.
pub(crate) fn number(net: &Net, widths: &[u32], a: u64, b: u64, c: u64) -> u64
    requires fits { Fits net.now (length widths.now) widths.now }
    requires each { All IsWidth widths.now }
    requires narrow { IsNarrowNet net.now widths.now }
    ensures { result ≡ number_in net.now widths.now a b c }
{
    match net {
        Net::Input { width: _ } => 0,
        Net::Register { reset: _ } => 0,
        Net::Const(word) => word_number(word),
        Net::Not(x) => a ^ ones(widths[*x as usize]),
        Net::And(_, _) => a & b,
        Net::Or(_, _) => a | b,
        Net::Xor(_, _) => a ^ b,
        Net::Add(x, _) => lowest_bits(a.wrapping_add(b), widths[*x as usize]),
        Net::Sub(x, _) => lowest_bits(a.wrapping_sub(b), widths[*x as usize]),
        Net::Equal(_, _) => u64::from(a == b),
        Net::Less(_, _) => u64::from(a < b),
        Net::Choose(_, _, _) => if a == 1 { b } else { c },
        Net::Slice { of: _, high, low } => lowest_bits(a >> *low, *high - *low + 1),
        Net::Concat { high: _, low } => (a << widths[*low as usize]).wrapping_add(b),
    }
}

/// The number that a word of at most 64 bits is.
fn word_number(word: &Word) -> u64
    requires { length word.now ≤ 64 }
    ensures { result ≡ number_of word.now }
{
    prove!(1 <= word.width());
    word.limb(0)
}

/// The lowest bits of a number, 1 to 64 of them.
fn lowest_bits(number: u64, width: u32) -> u64
    requires low { 1 ≤ width }
    requires high { width ≤ 64 }
    ensures { result ≡ number % 2 ^ width }
{
    number & ones(width)
}

/// The number whose lowest bits are ones, 1 to 64 of them, and no other.
fn ones(width: u32) -> u64
    requires low { 1 ≤ width }
    requires high { width ≤ 64 }
    ensures { result ≡ 2 ^ width - 1 }
{
    if width < LIMB_BITS {
        (1 << width) - 1
    } else {
        u64::MAX
    }
}
