//! A design that was checked.
ghost use Rattle.std.specs.Prelude.{◌≡◌};
ghost use Rattle.channel_typing.specs.Misfits.{misfits};
ghost use Rattle.check_rules.specs.Checks.{Accepts, checks};
ghost use Rattle.tree_plans.specs.Trees.{planned_tree};

use esi_text::Design;
use tree_plans::PlannedDesign;

/// A design that breaks no rule, with its plans and parts.
#[derive(Debug, Drop)]
pub struct Checked {
    /// The design.
    pub design: Design,
    /// The plans of its bodies, without names and types, and the table of the parts of which they speak. Of
    /// a pipe both are empty.
    pub planned: PlannedDesign,

    // No rule is broken.
    pub ghost accepted: { ∥ Accepts (checks misfits design.tree) ∥₁ },

    // The plans and the parts are those of the tree.
    pub ghost plans_are: { ∥ planned ≡ planned_tree design.tree ∥₁ },
}
