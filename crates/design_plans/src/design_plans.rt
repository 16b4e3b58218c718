//! The plans of a design.
use body_plans::Endpoints;
use esi_base::List;
use flat_design::Plan;

/// The plans of the bodies of a design, in the text's order: those of its modules, then the top's. So a
/// module's plan has the number of the module, and the top's is the last one.
#[derive(Debug, Drop)]
pub struct DesignPlans {
    /// One plan for each body. A body with more endpoints of one side than a top may have does nothing.
    pub plans: List<Plan>,
    /// How many endpoints each body has, those of its instances included; `TOO_MANY` of a side stands for all
    /// counts above the greatest one of a top.
    pub endpoints: List<Endpoints>,
}
