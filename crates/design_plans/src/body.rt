//! The plan of a body, behind those before it.
ghost use Rattle.std.specs.Prelude.{◌≡◌, IfOk, OnOk};
ghost use Rattle.check_rules.specs.Dependencies.{elements_of};
ghost use Rattle.body_plans.specs.Plans.{plan_of};
ghost use Rattle.body_plans.specs.Views.{before_of};
ghost use Rattle.design_scopes.specs.Resolving.{scope_in};
ghost use Rattle.design_plans.specs.Planning.{elements_in, with_body, with_plan};

use crate::design_plans::DesignPlans;
use crate::kept::{capped, kept};
use body_order::Elements;
use body_plans::{BodyPlan, Endpoints, ModulesBefore, OrderedElement, plan_body};
use design_scopes::body::Body;
use design_scopes::body_names::BodyNames;
use design_scopes::declared::Declared;
use design_scopes::scope_names::ScopeNames;
use esi_base::{List, NoMemory};
use name_tables::NameTable;
use std::alloc::Global;

/// Adds the plan of a body, whose elements are those of its number.
pub(crate) fn add_body<'a>(
    alloc: Global,
    declared: &Declared<'a>,
    modules: &NameTable<'a>,
    ordered: &[List<OrderedElement>],
    plans: &mut DesignPlans,
    body: &Body<'a>,
) -> Result<(), NoMemory>
    ensures { OnOk result (plans.new ≡ with_body modules.now ordered.now plans.old (scope_in declared.now body.now)) }
{
    let order = elements_at(ordered, plans.plans.len());
    let planned = planned_body(
        alloc,
        declared,
        modules,
        plans.endpoints.as_slice(),
        order,
        body,
    )?;
    add_plan(alloc, plans, planned)
}

/// Adds a plan, where the body has no more endpoints than a top may have.
fn add_plan(alloc: Global, plans: &mut DesignPlans, planned: BodyPlan) -> Result<(), NoMemory>
    ensures { OnOk result (plans.new ≡ with_plan plans.old planned) }
{
    plans.endpoints.add(capped(planned.endpoints))?;
    plans.plans.add(kept(alloc, planned))
}

/// The elements of the body of a number.
fn elements_at(ordered: &[List<OrderedElement>], number: usize) -> &[OrderedElement]
    ensures { result.now ≡ elements_in ordered.now number }
{
    match ordered.get(number) {
        None => &[],
        Some(elements) => elements.as_slice(),
    }
}

/// The plan of a body, over the endpoints of those before it.
fn planned_body<'a>(
    alloc: Global,
    declared: &Declared<'a>,
    modules: &NameTable<'a>,
    endpoints: &[Endpoints],
    order: &[OrderedElement],
    body: &Body<'a>,
) -> Result<BodyPlan, NoMemory>
    ensures { IfOk result (λ planned. planned ≡ plan_of (scope_in declared.now body.now) (before_of modules.now endpoints.now) (elements_of (scope_in declared.now body.now).statements) order.now) }
{
    let names = BodyNames::of(alloc, body)?;
    let scope = ScopeNames {
        declared,
        body,
        names: &names,
    };
    let before = ModulesBefore {
        names: modules,
        endpoints,
    };
    let elements = Elements::of(alloc, body.statements.as_slice())?;
    plan_in_scope(alloc, &scope, &before, &elements, order)
}

/// The plan of a body whose elements are these.
fn plan_in_scope<'v, 'a>(
    alloc: Global,
    scope: &ScopeNames<'v, 'a>,
    before: &ModulesBefore<'_, 'a>,
    elements: &Elements<'a>,
    order: &[OrderedElement],
) -> Result<BodyPlan, NoMemory>
    requires { elements.now ≡ elements_of scope.now.statements }
    ensures { IfOk result (λ planned. planned ≡ plan_of scope.now before.now (elements_of scope.now.statements) order.now) }
{
    plan_body(alloc, scope, before, elements, order)
}
