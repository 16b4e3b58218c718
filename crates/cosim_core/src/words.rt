//! Words of one bit, and the ports of channels.
ghost use Rattle.std.specs.Prelude.{◌≡◌, ◌∷◌, []};
ghost use Rattle.session_rules.specs.Ports.{bit_of, room_word, valid_word, word_shown, port_at};

use channel_lower::Port;
use esi_base::Word;

/// The word of one bit.
pub(crate) fn bit_word(bit: bool) -> Word
    ensures { result ≡ room_word bit }
{
    if bit {
        Word::from_u128(1, 1)
    } else {
        Word::zero(1)
    }
}

/// Whether there is an offer, as a word of one bit.
pub(crate) fn valid_word(offer: &Option<Word>) -> Word
    ensures { result ≡ valid_word offer.now }
{
    match offer {
        Some(_) => bit_word(true),
        None => bit_word(false),
    }
}

/// The word that is offered, and a blank one where none is.
pub(crate) fn offered_word(offer: Option<Word>, blank: Word) -> Word
    ensures { result ≡ word_shown blank offer }
{
    match offer {
        Some(word) => word,
        None => blank,
    }
}

/// The lowest bit of a word.
pub(crate) fn lowest_bit(word: Word) -> bool
    ensures { result ≡ bit_of word }
{
    let _width = word.width();
    word.bit(0)
}

/// The port of a channel.
pub(crate) fn port_of(ports: &[Port], channel: usize) -> Port
    ensures { result ≡ port_at ports.now channel }
{
    match ports.get(channel) {
        Some(port) => *port,
        None => Port {
            valid: 0,
            word: 0,
            ready: 0,
        },
    }
}
