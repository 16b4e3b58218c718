//! What follows where no rule of a design is broken.
ghost use Rattle.once_laws.specs.Accepted.{EachAccepted};
ghost use Rattle.once_laws.specs.OneStage.{EachStageBody};

use body_order::{bodies_law, needs_law};
use design_plans::design_law;
use element_order::order_law;
use plan_laws::blocks_law;

/// Where a design breaks no rule, and the elements of its bodies stand in their element order, all plans are
/// good, so that each body uses each of its channels once. It does nothing when it runs.
pub fn accepted_law()
    ensures { EachAccepted }
{
    order_law();
    needs_law();
    bodies_law();
    blocks_law();
    design_law();
}

/// In a body of one request, one stage and one drive each name is used once, so that what is asked of a body
/// can be met. It does nothing when it runs.
pub fn stage_body_law()
    ensures { EachStageBody }
{}
