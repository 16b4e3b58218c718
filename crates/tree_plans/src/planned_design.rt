//! A design as plans.
use design_plans::DesignPlans;
use esi_base::List;
use netlist::Part;

/// The plans of a design, and the parts of which they speak.
#[derive(Debug, Drop)]
pub struct PlannedDesign {
    /// The plans of its bodies, in the text's order: those of its modules, then the top's. A pipe has none.
    pub plans: DesignPlans,
    /// The table of the parts that stand for its elements. A step of a plan has the number of its part.
    pub parts: List<Part>,
}
