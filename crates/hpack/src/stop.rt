//! The rules of header blocks, and why a block is not read.
ghost use Rattle.std.specs.Prelude.{◌≡◌};
ghost use Rattle.hpack.specs.Rules.{rule_number};

use esi_base::Stop;

/// A rule of header blocks (sections of RFC 7541, where no other document is named).
#[derive(Clone, Copy, Debug, PartialEq, Eq)]
pub enum BlockRule {
    /// After the last word of a Huffman code stand fewer than 8 bits, and each of them is 1 (section
    /// 5.2).
    Padding,
    /// The end of string does not stand in a Huffman code (section 5.2).
    EndOfString,
    /// An index is that of an entry of the two tables (sections 2.3.3 and 6.1).
    NoSuchEntry,
    /// An integer or a string stands whole; an integer is below 2^32 and has at most 6 octets
    /// (sections 5.1 and 5.2).
    CutOrTooLarge,
    /// A size update sets at most 4,096, and stands before each field of the block (sections 4.2 and
    /// 6.3).
    WrongSizeUpdate,
    /// The size of the header list is at most 16,384 (RFC 9113, section 10.5.1).
    ListTooLarge,
}

impl BlockRule {
    /// The number of the rule: 711 to 716.
    pub fn number(self) -> u16
        ensures { result ≡ rule_number self }
    {
        match self {
            BlockRule::Padding => 711,
            BlockRule::EndOfString => 712,
            BlockRule::NoSuchEntry => 713,
            BlockRule::CutOrTooLarge => 714,
            BlockRule::WrongSizeUpdate => 715,
            BlockRule::ListTooLarge => 716,
        }
    }
}

/// Why a header block is not read: it is malformed, by the first rule in octet order that it breaks,
/// or memory ran out.
pub type HpackStop = Stop<BlockRule>;
