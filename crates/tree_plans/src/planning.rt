//! The plans of a design.
ghost use Rattle.std.specs.Prelude.{◌≡◌, [], map};
ghost use Rattle.esi_base.specs.Answers.{Reads};
ghost use Rattle.check_rules.specs.Scopes.{scopes, modules_of};
ghost use Rattle.channel_typing.specs.Misfits.{misfits};
ghost use Rattle.channel_typing.specs.Walk.{first_or};
ghost use Rattle.design_scopes.specs.Resolving.{scope_in};
ghost use Rattle.design_scopes.specs.Tables.{module_label};
ghost use Rattle.tree_plans.specs.Trees.{bodies_of_tree, planned_bodies, planned_tree};

use crate::names::module_table;
use crate::planned_design::PlannedDesign;
use design_plans::{DesignPlans, plan_bodies};
use design_scopes::bodies::bodies_of;
use design_scopes::body::Body;
use design_scopes::declared::Declared;
use design_tree::{Declaration, DesignTree, Top};
use element_parts::{DesignParts, list_parts};
use esi_base::{List, Stop};
use name_tables::NameTable;
use std::alloc::Global;

/// The plans of a design, with the table of the parts that stand for its elements. It asks only that types
/// fit: it is refused at the first place at which one does not. It takes time in n log n beside the types
/// that joins make.
pub fn plan_design(alloc: Global, tree: &DesignTree) -> Result<PlannedDesign, Stop<usize>>
    ensures { Reads (first_or (misfits (bodies_of_tree tree.now)) (planned_tree tree.now)) result }
{
    match tree {
        DesignTree::Pipe(_) => Ok(nothing_planned(alloc)),
        DesignTree::Modules { declarations, top } => {
            plan_modules(alloc, declarations.as_slice(), top)
        }
    }
}

/// The plans of a design without bodies.
fn nothing_planned(alloc: Global) -> PlannedDesign
    ensures { result ≡ planned_bodies [] [] }
{
    PlannedDesign {
        plans: DesignPlans {
            plans: List::new(alloc),
            endpoints: List::new(alloc),
        },
        parts: List::new(alloc),
    }
}

/// The plans of declarations and a top.
#[tactic(auto, using(crate::proofs::Bodies::read_same))]
fn plan_modules(
    alloc: Global,
    declarations: &[Declaration],
    top: &Top,
) -> Result<PlannedDesign, Stop<usize>>
    ensures { Reads (first_or (misfits (scopes declarations.now top.now)) (planned_bodies (map module_label (modules_of declarations.now)) (scopes declarations.now top.now))) result }
{
    let declared = Declared::of(alloc, declarations)?;
    let bodies = bodies_of(alloc, declarations, top)?;
    let names = module_table(alloc, declarations)?;
    plan_declared(alloc, &declared, &names, bodies.as_slice())
}

/// The plans of bodies, whose modules have these names.
#[tactic(auto, using(crate::proofs::Bodies::value_kept, crate::proofs::Bodies::stop_kept))]
fn plan_declared<'a>(
    alloc: Global,
    declared: &Declared<'a>,
    names: &NameTable<'a>,
    bodies: &[Body<'a>],
) -> Result<PlannedDesign, Stop<usize>>
    ensures { Reads (first_or (misfits (map (scope_in declared.now) bodies.now)) (planned_bodies names.now (map (scope_in declared.now) bodies.now))) result }
{
    match list_parts(alloc, declared, bodies) {
        Ok(found) => {
            let DesignParts { parts, ordered } = found;
            let plans = plan_bodies(alloc, declared, names, bodies, ordered.as_slice())?;
            Ok(PlannedDesign { plans, parts })
        }
        Err(stop) => Err(stop),
    }
}
