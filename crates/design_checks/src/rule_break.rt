//! What is reported of a design that breaks a rule.
use check_rules::CheckRule;

/// A rule that is broken, and where that is reported.
#[derive(Clone, Copy, Debug, PartialEq, Eq)]
pub struct RuleBreak {
    /// The rule.
    pub rule: CheckRule,
    /// The offset of the octet at which the break is reported.
    pub at: usize,
}

impl RuleBreak {
    ghost use Rattle.std.specs.Prelude.{◌≡◌, option_map};
    ghost use Rattle.design_checks.specs.Breaks.{broken_at};

    /// The break of a rule at the place that was found, if one was.
    pub(crate) fn of(rule: CheckRule, found: Option<usize>) -> Option<RuleBreak>
        ensures { result ≡ option_map (broken_at rule) found }
    {
        match found {
            None => None,
            Some(at) => Some(RuleBreak { rule, at }),
        }
    }
}
