//! Places of offsets, and refusals of tokens by place.
ghost use Rattle.std.specs.Prelude.{◌≡◌, ◌<◌, ◌-◌, ◌^◌, length};
ghost use Rattle.channel_types.specs.TypeAnswers as answers;
ghost use Rattle.esi_text.specs.Designs as designs;

use design_grammar::{TokenRefusal, TokenStop};
use esi_base::{Place, Refusal, Stop};

/// The place of an offset, or of the text's end.
pub fn place_in(text: &[u8], at: Option<usize>) -> Place
    requires { length text.now < 2 ^ 32 - 1 }
    ensures { result ≡ answers.place_in text.now at }
{
    // Offsets lie within the text; the least of both says so to the call.
    Place::at_offset(text, at.unwrap_or(text.len()).min(text.len()))
}

/// Why a reader of tokens stopped, by line and column.
pub fn stop_in(text: &[u8], stop: TokenStop) -> Stop
    requires { length text.now < 2 ^ 32 - 1 }
    ensures { result ≡ designs.stop_in text.now stop }
{
    match stop {
        Stop::Refused(TokenRefusal { number, at }) => Stop::Refused(Refusal {
            number,
            place: place_in(text, at),
        }),
        Stop::NoMemory => Stop::NoMemory,
    }
}
