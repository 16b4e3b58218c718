//! The rules of binding, by name.
ghost use Rattle.std.specs.Prelude.{◌≡◌};

/// A rule that a checked design may break at a request that is reached from its top.
#[derive(Clone, Copy, Debug, PartialEq, Eq)]
pub enum BindRule {
    /// The top does not implement the service.
    NotImplemented,
    /// An endpoint's name has more than `LONGEST_NAME` octets.
    NameTooLong,
    /// The text of an endpoint's type has more than `LONGEST_TYPE` octets.
    TypeTooLong,
}

impl BindRule {
    ghost use Rattle.design_endpoints.specs.BindRules.{rule_number};

    /// The number of the rule, as a refusal has it: 401 to 403.
    pub fn number(self) -> u16
        ensures { result ≡ rule_number self }
    {
        match self {
            BindRule::NotImplemented => 401,
            BindRule::NameTooLong => 402,
            BindRule::TypeTooLong => 403,
        }
    }
}

/// A rule that a design breaks, and the offset of the statement at which that is reported.
#[derive(Clone, Copy, Debug, PartialEq, Eq)]
pub struct BindBreak {
    /// The rule.
    pub rule: BindRule,
    /// The offset of the first octet of the request.
    pub at: usize,
}
