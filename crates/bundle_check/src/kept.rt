//! What a design that was checked keeps for those who bind and lower it.
ghost use Rattle.std.specs.Prelude.{◌≡◌};
ghost use Rattle.flat_design.specs.FlatLaws.{ArePlans};
ghost use Rattle.tree_plans.specs.Trees.{bodies_of_tree, planned_tree};
ghost use Rattle.planned_laws.specs.Planned.{AllStand, takes_of};

use crate::checked::Checked;
use flat_design::Plan;
use netlist::Part;
use planned_laws::planned_law;

impl Checked {
    /// The plans of its bodies, in the text's order: those of its modules, then the top's. A pipe has none.
    /// It takes no memory.
    pub fn plans(&self) -> &[Plan]
        ensures exact { result.now ≡ (planned_tree self.now.design.tree).plans.plans }

        // Each channel of a body is made before it is taken, and taken once.
        ensures good { ArePlans result.now (takes_of self.now.design.tree) }
    {
        planned_law();
        self.planned.plans.plans.as_slice()
    }

    /// The table of the parts that stand for its elements: a step of a plan has the number of its part. It
    /// takes no memory.
    pub fn parts(&self) -> &[Part]
        ensures exact { result.now ≡ (planned_tree self.now.design.tree).parts }

        // Each part stands for an operation, with the types of its sources; its formula is worth what the
        // expression means.
        ensures stand { AllStand (bodies_of_tree self.now.design.tree) result.now }
    {
        planned_law();
        self.planned.parts.as_slice()
    }
}
