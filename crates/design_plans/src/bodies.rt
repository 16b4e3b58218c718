//! The plans of all bodies.
ghost use Rattle.std.specs.Prelude.{◌≡◌, map, IfOk};
ghost use Rattle.design_scopes.specs.Resolving.{scope_in};
ghost use Rattle.design_plans.specs.Planning.{planned_along, no_plans};

use crate::body::add_body;
use crate::design_plans::DesignPlans;
use body_plans::OrderedElement;
use design_scopes::body::Body;
use design_scopes::declared::Declared;
use esi_base::{List, NoMemory};
use name_tables::NameTable;
use std::alloc::Global;

/// The plans of the bodies of a design, in this order: those of its modules, in the text's order, then the
/// top's. `modules` are the names of the modules, and `ordered` has for each body its elements in element
/// order, each with what stands for it. It asks nothing of the design. It takes time in n log n.
pub fn plan_bodies<'a>(
    alloc: Global,
    declared: &Declared<'a>,
    modules: &NameTable<'a>,
    bodies: &[Body<'a>],
    ordered: &[List<OrderedElement>],
) -> Result<DesignPlans, NoMemory>
    ensures { IfOk result (λ plans. plans ≡ planned_along modules.now ordered.now no_plans (map (scope_in declared.now) bodies.now)) }
{
    let mut plans = nothing_planned(alloc);
    for body in bodies {
        add_body(alloc, declared, modules, ordered, &mut plans, body)?;
    }
    Ok(plans)
}

/// No plans.
fn nothing_planned(alloc: Global) -> DesignPlans
    ensures { result ≡ no_plans }
{
    DesignPlans {
        plans: List::new(alloc),
        endpoints: List::new(alloc),
    }
}
