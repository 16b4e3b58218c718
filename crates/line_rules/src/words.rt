//! Words of a line, and how a broken rule is reported.
ghost use Rattle.std.specs.Prelude.{◌≡◌};
ghost use Rattle.std.specs.Str.{bytes_eq};
ghost use Rattle.esi_base.specs.declared.stop.Stop.TheVariants.{Refused};

use esi_base::{Place, Refusal, Stop};
use small_text::Part;

/// Whether a part is a word.
pub fn is_word(part: &Part<'_>, word: &[u8]) -> bool
    ensures { result ≡ bytes_eq part.now.octets word.now }
{
    part.octets() == word
}

/// The refusal by the rule with a number that is broken at a place.
pub fn refused_at(number: u16, place: Place) -> Stop
    ensures { result ≡ Refused (record { number = number; place = place }) }
{
    Stop::Refused(Refusal { number, place })
}
