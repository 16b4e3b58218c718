//! The rules on names and counts, in their order.
ghost use Rattle.std.specs.Prelude.{IfOk};
ghost use Rattle.design_scopes.specs.Bodies.{bodies_in};
ghost use Rattle.design_checks.specs.Breaks.{name_checks, ReportsBreak};

use crate::rule_break::RuleBreak;
use check_rules::CheckRule;
use design_names::DesignNames;
use esi_base::NoMemory;
use std::alloc::Global;

/// The first rule on names and counts that the design breaks. It takes time in n log n.
pub(crate) fn first_name_break(
    alloc: Global,
    names: &DesignNames<'_>,
) -> Result<Option<RuleBreak>, NoMemory>
    ensures { IfOk result (ReportsBreak (name_checks names.now.declarations (bodies_in names.now))) }
{
    if let Some(at) = names.first_declared_twice(alloc)? {
        return Ok(Some(RuleBreak {
            rule: CheckRule::DeclaredTwice,
            at,
        }));
    }
    if let Some(at) = names.first_undeclared(alloc)? {
        return Ok(Some(RuleBreak {
            rule: CheckRule::Undeclared,
            at,
        }));
    }
    if let Some(at) = names.first_count() {
        return Ok(Some(RuleBreak {
            rule: CheckRule::CountOutOfRange,
            at,
        }));
    }
    if let Some(at) = names.first_direction(alloc)? {
        return Ok(Some(RuleBreak {
            rule: CheckRule::WrongDirection,
            at,
        }));
    }
    if let Some(at) = names.first_used_twice(alloc)? {
        return Ok(Some(RuleBreak {
            rule: CheckRule::UsedTwice,
            at,
        }));
    }
    Ok(RuleBreak::of(CheckRule::Unused, names.first_unused(alloc)?))
}
