//! The rules of types, and their numbers.
ghost use Rattle.std.specs.Prelude.{◌≡◌};

/// The rules that a type may break all of whose parts are good. That too many types stand inside one
/// another is a rule of the grammar, `GrammarRule::TooManyOpenTypes`.
#[derive(Clone, Copy, Debug, PartialEq, Eq)]
pub enum TypeRule {
    /// A type has a width of 0 or above the greatest one.
    WidthOutOfRange,
    /// Two fields of a struct have the same name.
    RepeatedField,
}

impl TypeRule {
    ghost use Rattle.channel_types.specs.TypeRules.{rule_number};

    /// The number of the rule, as a refusal has it: 101 or 102.
    pub fn number(self) -> u16
        ensures { result ≡ rule_number self }
    {
        match self {
            TypeRule::WidthOutOfRange => 101,
            TypeRule::RepeatedField => 102,
        }
    }
}
