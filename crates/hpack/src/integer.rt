//! Integers (RFC 7541, section 5.1).
ghost use Rattle.std.specs.Prelude.{◌≡◌, ◌<◌, ◌^◌, ◌+◌};
ghost use Rattle.esi_base.specs.Answers.{AnswersAs};
ghost use Rattle.hpack.specs.Integers.{full_prefix};
ghost use Rattle.hpack.specs.IntegerReading.{integer_at, more_at, weights_of_groups};

use crate::limits::{INTEGER_OCTETS, INTEGER_VALUES};
use crate::stop::{BlockRule, HpackStop};
use esi_base::Stop;

/// What seven bits of each octet after a full prefix weigh, in order.
const WEIGHTS: [u64; INTEGER_OCTETS] = [1, 1 << 7, 1 << 14, 1 << 21, 1 << 28];

/// The integer at the front of octets, in a prefix of so many bits, and the octets after it.
#[tactic(auto, unfolding(crate::specs::IntegerReading::integer_at))]
pub(crate) fn integer_at(bits: u32, octets: &[u8]) -> Result<(u32, &[u8]), HpackStop>
    requires { bits < 8 }
    ensures { AnswersAs (λ x. (x.0, x.1.now)) (integer_at bits octets.now) result }
{
    let [octet, rest @ ..] = octets else {
        return Err(Stop::Refused(BlockRule::CutOrTooLarge));
    };
    let full = full_prefix(bits);
    let prefix = *octet % (full + 1);
    if prefix < full {
        Ok((u32::from(prefix), rest))
    } else {
        groups_at(full, rest)
    }
}

/// The value of a prefix of so many bits whose bits are all ones.
#[tactic(auto, using(crate::proofs::PrefixLemmas::prefix_low))]
pub(crate) fn full_prefix(bits: u32) -> u8
    requires { bits < 8 }
    ensures full { result ≡ full_prefix bits }
    ensures next { result + 1 ≡ 2 ^ bits }
    ensures small { result < 128 }
{
    (1 << bits) - 1
}

/// An integer whose prefix is full, from the octets after the prefix on.
fn groups_at(full: u8, octets: &[u8]) -> Result<(u32, &[u8]), HpackStop>
    ensures { AnswersAs (λ x. (x.0, x.1.now)) (more_at weights_of_groups full octets.now) result }
{
    let mut sum = u64::from(full);
    for (i, weight) in WEIGHTS.iter().enumerate() {
        let Some(octet) = octets.get(i) else {
            return Err(Stop::Refused(BlockRule::CutOrTooLarge));
        };
        sum += u64::from(*octet % 128) * *weight;
        if sum >= INTEGER_VALUES {
            return Err(Stop::Refused(BlockRule::CutOrTooLarge));
        }
        if *octet < 128 {
            return Ok((sum as u32, &octets[i + 1..]));
        }
    }
    Err(Stop::Refused(BlockRule::CutOrTooLarge))
}
