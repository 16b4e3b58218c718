//! What all simulation stands on, as the contracts of functions that do nothing.
ghost use Rattle.std.specs.Prelude.{List, Option};
ghost use Rattle.netlist.specs.Nets.{Bits};
ghost use Rattle.netlist.specs.Plans.{Plan, IsPlan};
ghost use Rattle.netlist.specs.Settled.{IsSettled, HasOneSettled, AreInputs, AreHeld, HaveWidths};
ghost use Rattle.netlist.specs.Runs.{HasOneRun};
ghost use Rattle.netlist.specs.FormulaLaws.{HasItsWidth};

use crate::formula::Formula;

/// A netlist has exactly one settled assignment for all inputs and all words of its registers.
#[tactic(auto, using(crate::specs::SettledLaws::one_settled))]
pub fn one_settled_assignment_law()
    ensures { (plan : Plan) → IsPlan plan → (inputs held : List Bits) → HasOneSettled plan inputs held }
{}

/// Where inputs and registers have words of their widths, every net has one of its width.
#[tactic(auto, using(crate::specs::SettledLaws::settled_widths))]
pub fn settled_widths_law()
    ensures { (plan : Plan) → IsPlan plan → (inputs held words : List Bits) → AreInputs plan inputs → AreHeld plan held → IsSettled plan inputs held words → HaveWidths plan.widths words }
{}

/// A netlist has exactly one run for each list of inputs, from its resets and from any later cycle on.
#[tactic(auto, using(crate::specs::Runs::one_run))]
pub fn one_run_law()
    ensures { (plan : Plan) → IsPlan plan → (last : Option (List Bits)) (offers : List (List Bits)) → HasOneRun plan last offers }
{}

/// For words of the widths for which a formula is good, what it is worth is as wide as it is.
pub fn formula_widths_law()
    ensures { (formula : Formula) → HasItsWidth formula }
{}
