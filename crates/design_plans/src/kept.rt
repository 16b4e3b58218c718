//! Plans of bodies that a top may reach.
ghost use Rattle.std.specs.Prelude.{◌≡◌, min};
ghost use Rattle.design_plans.specs.Planning.{is_within as within, capped as capped_endpoints, kept_plan};

use body_plans::{BodyPlan, Endpoints};
use check_rules::MAX_ENDPOINTS;
use esi_base::List;
use flat_design::Plan;
use std::alloc::Global;

/// Stands for every count of endpoints above the greatest one of a side.
pub const TOO_MANY: usize = MAX_ENDPOINTS + 1;

/// The plan of a body; one that does nothing where the body has too many endpoints.
pub(crate) fn kept(alloc: Global, planned: BodyPlan) -> Plan
    ensures { result ≡ kept_plan planned }
{
    let BodyPlan { plan, endpoints } = planned;
    if is_within(endpoints) {
        plan
    } else {
        let _dropped = plan;
        Plan {
            steps: List::new(alloc),
            outs: List::new(alloc),
        }
    }
}

/// Whether a top may have so many endpoints.
fn is_within(endpoints: Endpoints) -> bool
    ensures { result ≡ within endpoints }
{
    endpoints.to_server < TOO_MANY && endpoints.to_client < TOO_MANY
}

/// So many endpoints, with `TOO_MANY` for every greater count.
pub(crate) fn capped(endpoints: Endpoints) -> Endpoints
    ensures { result ≡ capped_endpoints endpoints }
{
    Endpoints {
        to_server: capped_count(endpoints.to_server),
        to_client: capped_count(endpoints.to_client),
    }
}

fn capped_count(count: usize) -> usize
    ensures { result ≡ min TOO_MANY count }
{
    if count < TOO_MANY { count } else { TOO_MANY }
}
