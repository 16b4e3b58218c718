//! The plans of a design that breaks no rule.
ghost use Rattle.std.specs.Prelude.{◌≡◌, IfOk};
ghost use Rattle.channel_typing.specs.Misfits.{misfits};
ghost use Rattle.check_rules.specs.Checks.{Accepts, checks};
ghost use Rattle.tree_plans.specs.Trees.{planned_tree};

use design_tree::DesignTree;
use esi_base::{NoMemory, Stop};
use std::alloc::Global;
use tree_plans::{PlannedDesign, plan_design};

/// The plans and the parts of a design that breaks no rule, so that all its types fit.
#[tactic(auto, using(crate::proofs::Planned::value_fits, crate::proofs::Planned::nothing_refused))]
pub(crate) fn plans_of(alloc: Global, tree: &DesignTree) -> Result<PlannedDesign, NoMemory>
    requires { Accepts (checks misfits tree.now) }
    ensures { IfOk result (λ planned. planned ≡ planned_tree tree.now) }
{
    match plan_design(alloc, tree) {
        Ok(planned) => Ok(planned),
        Err(Stop::NoMemory) => Err(NoMemory),
        Err(Stop::Refused(_at)) => unreachable!(),
    }
}
