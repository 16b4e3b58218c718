//! Lists of nets at the end of a netlist: they are pushed one after the other, and where they stand they carry
//! the words of their operators, cycle by cycle.
#![tactic(auto)]

ghost use Rattle.std.specs.Prelude.{◌≡◌, ◌+◌, ◌<◌, ◌≤◌, length, OnOk, OnErr, IsErrOf};
ghost use Rattle.net_lists.specs.Lists.{with_nets, FitAll, HasSome};

use netlist::{MAX_NETS, Net, NetRefused, Netlist};

/// Adds nets at the end of a netlist, in order. Each has to read nets before it alone, of widths that fit its
/// operator. Where there is no room for all of them, or memory runs out, some of the first ones are added.
pub fn push_nets(netlist: &mut Netlist, nets: &[Net]) -> Result<(), NetRefused>
    requires { FitAll netlist.old nets.now }
    ensures pushed { OnOk result (netlist.new ≡ with_nets netlist.old nets.now) }
    ensures room { OnOk result (length netlist.old.nets + length nets.now ≤ MAX_NETS) }
    ensures too_many { IsErrOf result NetRefused.TooMany → MAX_NETS < length netlist.old.nets + length nets.now }
    ensures refused { OnErr result (HasSome netlist.old netlist.new nets.now) }
{
    for net in nets {
        match netlist.push(*net) {
            Ok(_) => {}
            Err(refused) => return Err(refused),
        }
    }
    let _kept = netlist.len();
    Ok(())
}
