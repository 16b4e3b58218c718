//! Base 128 varints (Protocol Buffers encoding, "Base 128 Varints").
ghost use Rattle.std.specs.Prelude.{◌≡◌, ◌≤◌, length, IfOk};
ghost use Rattle.std.specs.List.{prefix_len};
ghost use Rattle.proto_wire.specs.declared.limit.TheConstants.{VARINT_OCTETS};
ghost use Rattle.proto_wire.specs.Varint.{continues, number_of_groups as groups_number};
ghost use Rattle.proto_wire.specs.FieldReading.{varint_at as varint_there};

use crate::limit::VARINT_OCTETS;
use crate::rule::WireRule;

/// The varint at an offset, and the offset after it.
#[tactic(auto, unfolding(crate::specs::FieldReading::varint_at))]
pub(crate) fn varint_at(octets: &[u8], at: usize) -> Result<(u64, usize), WireRule>
    requires { at ≤ length octets.now }
    ensures read { result ≡ varint_there octets.now at }
    ensures within { IfOk result (λ varint. varint.1 ≤ length octets.now) }
{
    let rest = &octets[at..];
    let before_last = continuing(rest);
    if before_last == rest.len() {
        return Err(WireRule::CutShort);
    }
    if before_last >= VARINT_OCTETS {
        return Err(WireRule::OversizedVarint);
    }
    let len = before_last + 1;
    match u64::try_from(number_of_groups(&rest[..len])) {
        Ok(value) => Ok((value, at + len)),
        Err(_) => Err(WireRule::OversizedVarint),
    }
}

/// How many octets with a continuation bit stand first.
fn continuing(octets: &[u8]) -> usize
    ensures count { result ≡ prefix_len continues octets.now }
    ensures within { result ≤ length octets.now }
{
    octets.iter().take_while(|octet| **octet >= 128).count()
}

/// The number of at most 10 groups of seven bits, the least significant group first.
fn number_of_groups(octets: &[u8]) -> u128
    requires { length octets.now ≤ VARINT_OCTETS }
    ensures { result ≡ groups_number octets.now }
{
    let mut number: u128 = 0;
    for at in (0..octets.len()).rev() {
        number = u128::from(octets[at] % 128) + 128 * number;
    }
    number
}
