//! The rules of fields and of messages, each with the number by which its refusals are reported.
ghost use Rattle.std.specs.Prelude.{◌≡◌};
ghost use Rattle.proto_wire.specs.Rules.{rule_number};

/// A rule of octets that are a message.
#[derive(Clone, Copy, Debug, PartialEq, Eq)]
pub enum WireRule {
    /// The octets go on to the end of each field that begins in them.
    CutShort,
    /// A varint has at most 10 octets and is at most 2^64 - 1.
    OversizedVarint,
    /// A key's wire type is 0, 1, 2 or 5: the groups of 3 and 4 are not read.
    WireType,
    /// A field's number is 1 to 536,870,911.
    FieldNumber,
    /// A name or a type is UTF-8.
    NotUtf8,
}

impl WireRule {
    /// The number by which a refusal names the rule.
    pub fn number(self) -> u16
        ensures { result ≡ rule_number self }
    {
        match self {
            WireRule::CutShort => 701,
            WireRule::OversizedVarint => 702,
            WireRule::WireType => 703,
            WireRule::FieldNumber => 704,
            WireRule::NotUtf8 => 705,
        }
    }
}
