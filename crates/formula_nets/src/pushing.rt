//! The nets of a formula at the end of a netlist.
ghost use Rattle.std.specs.Prelude.{◌≡◌, ◌+◌, ◌<◌, ◌≤◌, [], ℕ, Some, length, IfOk, OnOk, OnErr, IsErrOf};
ghost use Rattle.net_lists.specs.Lists.{with_nets, Carries, HasFront};
ghost use Rattle.formula_nets.specs.Making.{formula_nets, formula_net, formula_size, IsFormulaReady, FormulasCompute};

use crate::listing::list_formula;
use esi_base::List;
use net_lists::push_nets;
use netlist::{Formula, MAX_NETS, Net, NetRefused, Netlist};
use std::alloc::Global;

/// Adds the nets of a formula at the end of a netlist, and tells the number of the net that carries its word. `variables`
/// are the nets that carry its variables, in order; the formula has to be good for their widths. A variable alone has no
/// nets. Where there is no room for all nets, or memory runs out, some of the first ones are added.
pub fn push_formula(
    alloc: Global,
    netlist: &mut Netlist,
    variables: &[u32],
    formula: &Formula,
) -> Result<u32, NetRefused>
    requires { IsFormulaReady netlist.old variables.now formula.now }
    ensures pushed { OnOk result (netlist.new ≡ with_nets netlist.old (formula_nets variables.now formula.now (length netlist.old.nets))) }
    ensures number { IfOk result (λ net. net ≡ formula_net variables.now formula.now (length netlist.old.nets)) }
    ensures wide { IfOk result (λ net. (width : ℕ) → formula_size netlist.old variables.now formula.now ≡ Some width → Carries netlist.new net width) }
    ensures room { OnOk result (length netlist.old.nets + length (formula_nets variables.now formula.now (length netlist.old.nets)) ≤ MAX_NETS) }
    ensures too_many { IsErrOf result NetRefused.TooMany → MAX_NETS < length netlist.old.nets + length (formula_nets variables.now formula.now (length netlist.old.nets)) }
    ensures refused { OnErr result (HasFront netlist.old netlist.new (formula_nets variables.now formula.now (length netlist.old.nets))) }
{
    let base = netlist.len();
    let mut nets = List::new(alloc);
    match list_whole(variables, base, formula, &mut nets) {
        Ok(net) => match push_nets(netlist, nets.as_slice()) {
            Ok(()) => Ok(net),
            Err(refused) => Err(refused),
        },
        Err(refused) => Err(refused),
    }
}

/// The nets of a formula as a list, where there is room for them behind `base` nets.
fn list_whole(
    variables: &[u32],
    base: usize,
    formula: &Formula,
    nets: &mut List<Net>,
) -> Result<u32, NetRefused>
    requires base { base ≤ MAX_NETS }
    requires empty { nets.old ≡ [] }
    ensures listed { OnOk result (nets.new ≡ formula_nets variables.now formula.now base) }
    ensures number { IfOk result (λ net. net ≡ formula_net variables.now formula.now base) }
    ensures too_many { IsErrOf result NetRefused.TooMany → MAX_NETS < base + length (formula_nets variables.now formula.now base) }
{
    match list_formula(variables, base, formula, nets) {
        Ok(net) => Ok(net),
        Err(NetRefused::TooMany) => Err(NetRefused::TooMany),
        Err(NetRefused::NoMemory) => Err(NetRefused::NoMemory),
    }
}

/// Where the nets of a good formula stand in a netlist, in every settled assignment the net that carries its word has what
/// the formula is worth for the words of its variables. It does nothing when it runs.
pub fn formulas_compute()
    ensures { FormulasCompute }
{}
