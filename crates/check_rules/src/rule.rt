//! The rules of a design, by name.
ghost use Rattle.std.specs.Prelude.{◌≡◌};

/// A rule that a design may break once its text was read. `specs/` says where each is broken; they are
/// checked in the order of `checks` there.
#[derive(Clone, Copy, Debug, PartialEq, Eq)]
pub enum CheckRule {
    /// A name is looked up that is not declared.
    Undeclared,
    /// A name is declared twice in one space of names.
    DeclaredTwice,
    /// A type does not fit.
    WrongType,
    /// What has to be used, driven or bound is not.
    Unused,
    /// What may be used, driven or bound once is so twice.
    UsedTwice,
    /// A reference goes the wrong way: a sink is a source, or a source is driven.
    WrongDirection,
    /// A statement depends on itself.
    DependsOnItself,
    /// A channel of FIFO signalling stands where valid-ready is taken, or the other way round.
    WrongSignalling,
    /// The top is larger than the greatest size.
    TooLarge,
    /// The top has more to-server endpoints than may be.
    TooManyToServer,
    /// The top has more to-client endpoints than may be.
    TooManyToClient,
    /// A number of stages, a fifo's depth or a count of channels is out of its range.
    CountOutOfRange,
}

impl CheckRule {
    ghost use Rattle.check_rules.specs.RuleNumbers.{rule_number};

    /// The number of the rule, as a refusal has it: 301 to 312.
    pub fn number(self) -> u16
        ensures { result ≡ rule_number self }
    {
        match self {
            CheckRule::Undeclared => 301,
            CheckRule::DeclaredTwice => 302,
            CheckRule::WrongType => 303,
            CheckRule::Unused => 304,
            CheckRule::UsedTwice => 305,
            CheckRule::WrongDirection => 306,
            CheckRule::DependsOnItself => 307,
            CheckRule::WrongSignalling => 308,
            CheckRule::TooLarge => 309,
            CheckRule::TooManyToServer => 310,
            CheckRule::TooManyToClient => 311,
            CheckRule::CountOutOfRange => 312,
        }
    }
}
