//! The word of one net, given its sources' words.
ghost use Rattle.std.specs.Prelude.{◌≡◌};
ghost use Rattle.netlist.specs.Nets.{Takes, result_of};

use crate::net::Net;
use esi_base::Word;

/// The word of a net that is neither an input nor a register, given its sources' words in the order of
/// its fields.
pub(crate) fn evaluated(net: &Net, words: &[Word]) -> Word
    requires { Takes net.now words.now }
    ensures { result ≡ result_of net.now words.now }
{
    match net {
        Net::Input { width } => Word::zero(*width),
        Net::Register { reset } => *reset,
        Net::Const(word) => *word,
        Net::Not(_) => words[0].bit_not(),
        Net::And(_, _) => words[0].bit_and(&words[1]),
        Net::Or(_, _) => words[0].bit_or(&words[1]),
        Net::Xor(_, _) => words[0].bit_xor(&words[1]),
        Net::Add(_, _) => words[0].plus(&words[1]),
        Net::Sub(_, _) => words[0].minus(&words[1]),
        Net::Equal(_, _) => words[0].equal(&words[1]),
        Net::Less(_, _) => words[0].less(&words[1]),
        Net::Choose(_, _, _) => words[0].choose(&words[1], &words[2]),
        Net::Slice { of: _, high, low } => words[0].slice(*high, *low),
        Net::Concat { high: _, low: _ } => words[0].concat(&words[1]),
    }
}
