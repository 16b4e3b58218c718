//! The rules of the code, and why octets were not decoded.
ghost use Rattle.std.specs.Prelude.{◌≡◌};
ghost use Rattle.hpack_huffman.specs.Rules.{rule_number};

use esi_base::Stop;

/// A rule of the Huffman code of header strings (RFC 7541, section 5.2).
#[derive(Clone, Copy, Debug, PartialEq, Eq)]
pub enum HuffmanRule {
    /// After the last word stand fewer than 8 bits, and each of them is 1.
    Padding,
    /// The end of string does not stand among the words.
    EndOfString,
}

impl HuffmanRule {
    /// The number of the rule: 711 or 712.
    pub fn number(self) -> u16
        ensures { result ≡ rule_number self }
    {
        match self {
            HuffmanRule::Padding => 711,
            HuffmanRule::EndOfString => 712,
        }
    }
}

/// Why octets were not decoded: they break a rule of the code, or memory ran out.
pub type HuffStop = Stop<HuffmanRule>;
