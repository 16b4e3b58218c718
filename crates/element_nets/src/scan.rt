//! A scan: a state computed from each word and the state before, which is what goes out.
ghost use Rattle.std.specs.Prelude.{◌≡◌, ◌+◌, ◌<◌, ◌≤◌, length, IfOk, OnOk, OnErr, IsErrOf};
ghost use Rattle.netlist.specs.Plans.{IsNextOf};
ghost use Rattle.net_lists.specs.Lists.{with_nets, HasSome};
ghost use Rattle.element_nets.specs.Scans.{scan_register, scan_next, scan_linked, IsScanReady};

use esi_base::Word;
use net_lists::push_nets;
use netlist::{MAX_NETS, Net, NetRefused, Netlist};

/// The nets between which a scan stands, and those that it has so far.
#[derive(Clone, Copy, Debug)]
pub struct ScanNets {
    /// The register of its state.
    pub register: u32,
    /// The valid net of its input, and of its output.
    pub valid: u32,
    /// The ready net of its output, and of its input.
    pub ready: u32,
    /// The word of its output.
    pub out: u32,
}

/// Adds the register of a scan's state, and tells its number.
pub fn push_scan_register(netlist: &mut Netlist, reset: Word) -> Result<u32, NetRefused>
    ensures pushed { OnOk result (netlist.new ≡ with_nets netlist.old (scan_register reset)) }
    ensures number { IfOk result (λ net. net ≡ length netlist.old.nets) }
    ensures room { OnOk result (length netlist.old.nets + length (scan_register reset) ≤ MAX_NETS) }
    ensures too_many { IsErrOf result NetRefused.TooMany → MAX_NETS < length netlist.old.nets + length (scan_register reset) }
    ensures refused { OnErr result (HasSome netlist.old netlist.new (scan_register reset)) }
{
    let net = netlist.len() as u32;
    match push_nets(netlist, &[Net::Register { reset }]) {
        Ok(()) => Ok(net),
        Err(refused) => Err(refused),
    }
}

/// Adds the nets of what a scan's state is next, sets its next net, and tells the number of the first one. `reset` is the
/// state at the start.
pub fn push_scan_next(netlist: &mut Netlist, scan: ScanNets, reset: Word) -> Result<u32, NetRefused>
    requires { IsScanReady netlist.old scan reset }
    ensures pushed { let at = length netlist.old.nets in OnOk result (netlist.new ≡ scan_linked (with_nets netlist.old (scan_next scan at)) scan.register at) }
    ensures number { IfOk result (λ net. net ≡ length netlist.old.nets) }
    ensures room { OnOk result (length netlist.old.nets + length (scan_next scan 0) ≤ MAX_NETS) }
    ensures too_many { IsErrOf result NetRefused.TooMany → MAX_NETS < length netlist.old.nets + length (scan_next scan 0) }
    ensures refused { OnErr result (HasSome netlist.old netlist.new (scan_next scan (length netlist.old.nets))) }
{
    let at = netlist.len() as u32;
    match push_scan_operators(netlist, scan, reset, at) {
        Ok(()) => {
            netlist.set_next(scan.register, at + 1);
            Ok(at)
        }
        Err(refused) => Err(refused),
    }
}

/// The two nets, without the register's next net.
fn push_scan_operators(
    netlist: &mut Netlist,
    scan: ScanNets,
    reset: Word,
    at: u32,
) -> Result<(), NetRefused>
    requires place { at ≡ length netlist.old.nets }
    requires ready { IsScanReady netlist.old scan reset }
    ensures pushed { OnOk result (netlist.new ≡ with_nets netlist.old (scan_next scan at)) }
    ensures link { OnOk result (IsNextOf netlist.new scan.register (at + 1)) }
    ensures room { OnOk result (length netlist.old.nets + length (scan_next scan 0) ≤ MAX_NETS) }
    ensures too_many { IsErrOf result NetRefused.TooMany → MAX_NETS < length netlist.old.nets + length (scan_next scan 0) }
    ensures refused { OnErr result (HasSome netlist.old netlist.new (scan_next scan at)) }
{
    let _count = netlist.len();
    push_nets(
        netlist,
        &[
            Net::And(scan.valid, scan.ready),
            Net::Choose(at, scan.out, scan.register),
        ],
    )
}
