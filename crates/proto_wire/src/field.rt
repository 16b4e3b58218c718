//! A field of octets, and why octets are no field.

/// A field: the octets of its key, and after them those of its value.
#[derive(Clone, Copy, Debug, PartialEq, Eq)]
pub struct WireField {
    /// The field's number, 1 to `GREATEST_FIELD_NUMBER`.
    pub number: u32,
    /// The field's value.
    pub value: WireValue,
    /// The offset after the field's last octet, in the octets that it was read in.
    pub after: usize,
}

/// The value of a field, by its wire type. Groups have none here.
#[derive(Clone, Copy, Debug, PartialEq, Eq)]
pub enum WireValue {
    /// Wire type 0: a base 128 varint.
    Varint(u64),
    /// Wire type 1: eight octets, the least significant first.
    Fixed64(u64),
    /// Wire type 2: as many octets as the varint before them says.
    Span {
        /// The offset of their first octet, in the octets that the field was read in.
        from: usize,
        /// The offset after their last octet.
        to: usize,
    },
    /// Wire type 5: four octets, the least significant first.
    Fixed32(u32),
}

/// Octets are no field, or no message: the number of the rule that they break, and where.
#[derive(Clone, Copy, Debug, PartialEq, Eq)]
pub struct WireRefusal {
    /// The rule's number, that of a `WireRule`.
    pub number: u16,
    /// The offset of the first octet of the field's key.
    pub at: usize,
}
