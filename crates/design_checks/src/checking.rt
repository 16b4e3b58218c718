//! The first rule that a design breaks.
ghost use Rattle.std.specs.Prelude.{◌≡◌, ◌++◌, ◌∷◌, [], IfOk, Contains};
ghost use Rattle.channel_typing.specs.Misfits.{misfits};
ghost use Rattle.name_tables.specs.FirstPlaces.{Nowhere};
ghost use Rattle.check_rules.specs.Checks.{by_place, checks, checks_over, Accepts};
ghost use Rattle.check_rules.specs.Counts.{stages_outside};
ghost use Rattle.check_rules.specs.DeclaredTwice.{BreaksDeclaredTwice};
ghost use Rattle.check_rules.specs.Scopes.{scopes};
ghost use Rattle.check_rules.specs.declared.rule.CheckRule.TheVariants as R;
ghost use Rattle.design_scopes.specs.Bodies.{bodies_in, text_of};
ghost use Rattle.design_checks.specs.Breaks.{name_checks, body_checks, total_checks, order_break, ReportsBreak};

use crate::bodies::{BodyBreaks, body_breaks};
use crate::names::first_name_break;
use crate::rule_break::RuleBreak;
use body_order::bodies_law;
use check_rules::{CheckRule, MAX_STAGES, MIN_STAGES};
use design_names::DesignNames;
use design_totals::DesignTotals;
use design_tree::{Declaration, DesignTree, Number, Top};
use esi_base::NoMemory;
use std::alloc::Global;

/// The first rule that a design breaks, in the order of the checks, and where that is reported; None exactly
/// where it breaks none. It takes time in n log n, but for elements that depend on themselves.
pub fn first_break(alloc: Global, tree: &DesignTree) -> Result<Option<RuleBreak>, NoMemory>
    ensures { IfOk result (ReportsBreak (checks misfits tree.now)) }
{
    match tree {
        DesignTree::Pipe(pipe) => Ok(pipe_break(pipe.stages)),
        DesignTree::Modules { declarations, top } => {
            modules_break(alloc, declarations.as_slice(), top)
        }
    }
}

/// What a pipe of so many stages breaks.
fn pipe_break(stages: Number) -> Option<RuleBreak>
    ensures { ReportsBreak (by_place R.CountOutOfRange (Contains (stages_outside stages)) ∷ []) result }
{
    if stages.value < MIN_STAGES || MAX_STAGES < stages.value {
        Some(RuleBreak {
            rule: CheckRule::CountOutOfRange,
            at: stages.at,
        })
    } else {
        None
    }
}

/// What declarations and a top break: the rules on names first, then those on bodies, then those on the
/// top.
fn modules_break(
    alloc: Global,
    declarations: &[Declaration],
    top: &Top,
) -> Result<Option<RuleBreak>, NoMemory>
    ensures { IfOk result (ReportsBreak (checks_over misfits declarations.now top.now (scopes declarations.now top.now))) }
{
    let names = DesignNames::of(alloc, declarations, top)?;
    match first_name_break(alloc, &names)? {
        Some(found) => Ok(Some(found)),
        None => later_break(alloc, declarations, top, &names),
    }
}

/// What a design breaks whose names and counts are right: the rules on bodies first, then those on the top.
fn later_break<'a>(
    alloc: Global,
    declarations: &'a [Declaration],
    top: &'a Top,
    names: &DesignNames<'a>,
) -> Result<Option<RuleBreak>, NoMemory>
    requires names { names.now ≡ text_of declarations.now top.now }
    requires kept { Accepts (name_checks declarations.now (scopes declarations.now top.now)) }
    ensures { IfOk result (ReportsBreak (body_checks misfits (scopes declarations.now top.now) ++ total_checks declarations.now top.now)) }
{
    match first_body_break(alloc, names)? {
        Some(found) => Ok(Some(found)),
        None => {
            let declared = names.declared();
            let bodies = names.bodies();
            let totals = DesignTotals::of(alloc, declarations, top, declared, bodies)?;
            Ok(total_break(&totals))
        }
    }
}

/// The first rule on bodies that is broken, where no name is declared twice.
#[tactic(auto, using(crate::proofs::BreakLaws::bodies_reported))]
fn first_body_break(alloc: Global, names: &DesignNames<'_>) -> Result<Option<RuleBreak>, NoMemory>
    requires { Nowhere (BreaksDeclaredTwice names.now.declarations (bodies_in names.now)) }
    ensures { IfOk result (ReportsBreak (body_checks misfits (bodies_in names.now))) }
{
    bodies_law();
    let breaks = body_breaks(alloc, names.declared(), names.bodies())?;
    Ok(order_break(breaks))
}

/// The first of the rules on bodies, of what was found in them.
fn order_break(breaks: BodyBreaks) -> Option<RuleBreak>
    ensures { result ≡ order_break breaks }
{
    if let Some(at) = breaks.cycle {
        return Some(RuleBreak {
            rule: CheckRule::DependsOnItself,
            at,
        });
    }
    if let Some(at) = breaks.signal {
        return Some(RuleBreak {
            rule: CheckRule::WrongSignalling,
            at,
        });
    }
    RuleBreak::of(CheckRule::WrongType, breaks.misfit)
}

/// The first rule on the top's size and its endpoints that is broken.
fn total_break(totals: &DesignTotals<'_>) -> Option<RuleBreak>
    ensures { ReportsBreak (total_checks totals.now.declarations totals.now.top) result }
{
    if let Some(at) = totals.first_too_large() {
        return Some(RuleBreak {
            rule: CheckRule::TooLarge,
            at,
        });
    }
    if let Some(at) = totals.first_too_many_to_server() {
        return Some(RuleBreak {
            rule: CheckRule::TooManyToServer,
            at,
        });
    }
    RuleBreak::of(
        CheckRule::TooManyToClient,
        totals.first_too_many_to_client(),
    )
}
