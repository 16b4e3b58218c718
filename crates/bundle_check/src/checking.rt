//! A design is checked.
ghost use Rattle.std.specs.Prelude.{◌≡◌, IfOk};
ghost use Rattle.esi_base.specs.Answers.{AnswersAs, IfRefused};
ghost use Rattle.channel_typing.specs.Misfits.{misfits};
ghost use Rattle.check_rules.specs.Checks.{Accepts, checks};
ghost use Rattle.tree_plans.specs.Trees.{planned_tree};
ghost use Rattle.bundle_check.specs.Checking.{checked_of, tree_of};
ghost use Rattle.bundle_check.specs.Refusals.{IsReported, IsCheckNumber};

use crate::checked::Checked;
use crate::planning::plans_of;
use design_checks::{RuleBreak, checks_law, first_break};
use esi_base::{Refusal, Stop};
use esi_text::Design;
use first_breaks::first_breaks_law;
use std::alloc::Global;

/// Checks a design. A design that breaks rules is refused by the first of them in the order of the checks
/// (301 to 312), at the place of its break, and dropped.
#[tactic(auto, using(crate::proofs::Refused::number_listed, crate::proofs::Answered::answers_kept, crate::proofs::Answered::answers_broken))]
pub fn check(alloc: Global, design: Design) -> Result<Checked, Stop>
    // What is answered is computed from the text and the tree.
    ensures answers { AnswersAs tree_of (checked_of design.text design.tree) result }

    // A design is accepted exactly where it breaks no rule, and is kept as it is.
    ensures accepted { IfOk result (λ checked. Accepts (checks misfits design.tree)) }
    ensures kept { IfOk result (λ checked. checked.design ≡ design) }
    ensures only { Accepts (checks misfits design.tree) → IfRefused result (λ _. ⊥) }

    // It is kept with the plans of its bodies and the table of the parts that stand for its elements.
    ensures planned { IfOk result (λ checked. checked.planned ≡ planned_tree design.tree) }

    // What is refused breaks the rule of that number first, and its break is reported at that place.
    ensures refused { IfRefused result (IsReported design.text design.tree) }
    ensures numbers { IfRefused result (λ refusal. IsCheckNumber refusal.number) }
{
    checks_law();
    first_breaks_law();
    match first_break(alloc, &design.tree)? {
        None => {
            let planned = plans_of(alloc, &design.tree)?;
            Ok(Checked { design, planned })
        }
        Some(RuleBreak { rule, at }) => {
            Err(Stop::Refused(Refusal {
                number: rule.number(),
                place: design.place(at),
            }))
        }
    }
}
