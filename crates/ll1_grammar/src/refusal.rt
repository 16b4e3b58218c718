//! The refusal of a token.

/// How a text is refused at a token: the number of the rule that it breaks, and the offset of the first
/// octet of the token at which the refusal is reported; None at the end of the text.
#[derive(Clone, Copy, Debug, PartialEq, Eq, Drop)]
pub struct TokenRefusal {
    /// The number of the rule that the text breaks.
    pub number: u16,
    /// The offset of the first octet of the token; None at the end.
    pub at: Option<usize>,
}
