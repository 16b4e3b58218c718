//! Sixteen limbs of 64 bits, the least significant one first. Contracts see the number that they are.
ghost use Rattle.std.specs.Prelude.{◌≡◌, ◌+◌, ◌-◌, ◌*◌, ◌/◌, ◌%◌, ◌^◌, ◌<◌, ◌≤◌, length, bit_and, bit_or, bit_xor};
ghost use Rattle.esi_base.specs.Parts.{whole, part};
ghost use Rattle.esi_base.specs.Limbs.{IsLimbs, limbs_of};

/// How many bits a limb has.
pub const LIMB_BITS: u32 = 64;

/// How many octets a limb has.
pub const LIMB_OCTETS: u32 = 8;

const _: () = prove!(LIMB_BITS == 64 && LIMB_OCTETS == 8);

/// The bits of the number from one place on, as many as the width says.
pub fn cut(limbs: &[u64; 16], from: u32, width: u32) -> [u64; 16]
    requires from { from ≤ 1024 }
    requires width { width ≤ 1024 }
    ensures { result ≡ limbs_of (whole 64 limbs.now / 2 ^ from % 2 ^ width) }
{
    let mut out = [0; 16];
    for at in 0..16 {
        out[at as usize] = limb_from(limbs, from + LIMB_BITS * at) & limb_of_ones(width, at);
    }
    out
}

/// One number above the bits of another one.
pub fn joined(high: &[u64; 16], low: &[u64; 16], by: u32) -> [u64; 16]
    requires { whole 64 low.now < 2 ^ by }
    ensures { result ≡ limbs_of (whole 64 high.now * 2 ^ by + whole 64 low.now) }
{
    let mut out = [0; 16];
    for at in 0..16 {
        out[at as usize] = limb_above(high, by, at) | low[at as usize];
    }
    out
}

/// The number that at most 128 octets are, the least significant one first.
pub fn from_octets(octets: &[u8]) -> [u64; 16]
    requires { length octets.now ≤ 128 }
    ensures { result ≡ limbs_of (whole 8 octets.now) }
{
    let mut out = [0; 16];
    for at in 0..16 {
        let from = (LIMB_OCTETS as usize * at).min(octets.len());
        let end = (from + LIMB_OCTETS as usize).min(octets.len());
        out[at] = limb_of_octets(&octets[from..end]);
    }
    out
}

/// The number that at most 16 limbs are, the least significant one first.
pub fn from_limbs(limbs: &[u64]) -> [u64; 16]
    requires { length limbs.now ≤ 16 }
    ensures { result ≡ limbs_of (whole 64 limbs.now) }
{
    let mut out = [0; 16];
    for at in 0..16 {
        out[at] = limbs.get(at).copied().unwrap_or(0);
    }
    out
}

/// The bits that both numbers have.
pub fn and(first: &[u64; 16], second: &[u64; 16]) -> [u64; 16]
    requires first { IsLimbs first.now }
    requires second { IsLimbs second.now }
    ensures { result ≡ limbs_of (bit_and (whole 64 first.now) (whole 64 second.now)) }
{
    let mut out = [0; 16];
    for at in 0..16 {
        out[at] = first[at] & second[at];
    }
    out
}

/// The bits that one of the numbers has.
pub fn or(first: &[u64; 16], second: &[u64; 16]) -> [u64; 16]
    requires first { IsLimbs first.now }
    requires second { IsLimbs second.now }
    ensures { result ≡ limbs_of (bit_or (whole 64 first.now) (whole 64 second.now)) }
{
    let mut out = [0; 16];
    for at in 0..16 {
        out[at] = first[at] | second[at];
    }
    out
}

/// The bits that exactly one of the numbers has.
pub fn xor(first: &[u64; 16], second: &[u64; 16]) -> [u64; 16]
    requires first { IsLimbs first.now }
    requires second { IsLimbs second.now }
    ensures { result ≡ limbs_of (bit_xor (whole 64 first.now) (whole 64 second.now)) }
{
    let mut out = [0; 16];
    for at in 0..16 {
        out[at] = first[at] ^ second[at];
    }
    out
}

/// The bits below a width that the number does not have.
pub fn not(limbs: &[u64; 16], width: u32) -> [u64; 16]
    ensures { result ≡ limbs_of (bit_xor (whole 64 limbs.now) (2 ^ width - 1)) }
{
    let mut out = [0; 16];
    for at in 0..16 {
        out[at as usize] = limbs[at as usize] ^ limb_of_ones(width, at);
    }
    out
}

/// A limb, or 0 past the last one.
fn limb_at(limbs: &[u64; 16], at: u32) -> u64
    ensures { result ≡ part 64 (whole 64 limbs.now) at }
{
    limbs.get(at as usize).copied().unwrap_or(0)
}

/// The 64 bits of the number from one place on.
fn limb_from(limbs: &[u64; 16], from: u32) -> u64
    ensures { result ≡ whole 64 limbs.now / 2 ^ from % 2 ^ 64 }
{
    let at = from / LIMB_BITS;
    let low = limb_at(limbs, at);
    let high = limb_at(limbs, at + 1);
    let pair = (u128::from(high) << LIMB_BITS) + u128::from(low);
    ((pair >> (from % LIMB_BITS)) % (1 << LIMB_BITS)) as u64
}

/// A limb of the number that is higher by some places.
fn limb_above(limbs: &[u64; 16], by: u32, at: u32) -> u64
    requires { at < 16 }
    ensures { result ≡ part 64 (whole 64 limbs.now * 2 ^ by) at }
{
    let from = LIMB_BITS * at;
    if by <= from {
        limb_from(limbs, from - by)
    } else if by - from < LIMB_BITS {
        limbs[0] << (by - from)
    } else {
        0
    }
}

/// A limb of the number whose lowest bits are ones, as many as the width says, and no other.
fn limb_of_ones(width: u32, at: u32) -> u64
    requires { at < 16 }
    ensures { result ≡ part 64 (2 ^ width - 1) at }
{
    let from = LIMB_BITS * at;
    if width <= from {
        0
    } else if width - from < LIMB_BITS {
        (1 << (width - from)) - 1
    } else {
        u64::MAX
    }
}

/// The number that at most eight octets are, the least significant one first.
fn limb_of_octets(octets: &[u8]) -> u64
    requires { length octets.now ≤ 8 }
    ensures { result ≡ whole 8 octets.now }
{
    let mut limb = 0;
    let mut at = octets.len();
    while at > 0 {
        at -= 1;
        limb = (limb << 8) + u64::from(octets[at]);
    }
    limb
}
