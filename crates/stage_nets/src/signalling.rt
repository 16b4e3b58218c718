//! The elements that change a channel's signalling. The word goes on as it is, and so does what is no net here.
ghost use Rattle.std.specs.Prelude.{◌≡◌, ◌+◌, ◌<◌, ◌≤◌, length, IfOk, OnOk, OnErr, IsErrOf};
ghost use Rattle.net_lists.specs.Lists.{with_nets, HasSome, Carries};
ghost use Rattle.stage_nets.specs.Signalling.{as_fifo_empty, as_vr_valid, as_vr_rden, AsFifosObey, AsVrsObey};

use net_lists::push_nets;
use netlist::{MAX_NETS, Net, NetRefused, Netlist};

/// Adds the net of `empty` of an as_fifo, whose input has this valid net, and tells its number. Its `rden` is the ready of its
/// input.
pub fn push_as_fifo_empty(netlist: &mut Netlist, valid: u32) -> Result<u32, NetRefused>
    requires { valid < length netlist.old.nets }
    ensures pushed { OnOk result (netlist.new ≡ with_nets netlist.old (as_fifo_empty valid)) }
    ensures number { IfOk result (λ net. net ≡ length netlist.old.nets) }
    ensures room { OnOk result (length netlist.old.nets + length (as_fifo_empty valid) ≤ MAX_NETS) }
    ensures too_many { IsErrOf result NetRefused.TooMany → MAX_NETS < length netlist.old.nets + length (as_fifo_empty valid) }
    ensures refused { OnErr result (HasSome netlist.old netlist.new (as_fifo_empty valid)) }
{
    let net = netlist.len() as u32;
    match push_nets(netlist, &[Net::Not(valid)]) {
        Ok(()) => Ok(net),
        Err(refused) => Err(refused),
    }
}

/// Adds the valid net of an as_vr, whose input has this net of `empty`, and tells its number.
pub fn push_as_vr_valid(netlist: &mut Netlist, empty: u32) -> Result<u32, NetRefused>
    requires { empty < length netlist.old.nets }
    ensures pushed { OnOk result (netlist.new ≡ with_nets netlist.old (as_vr_valid empty)) }
    ensures number { IfOk result (λ net. net ≡ length netlist.old.nets) }
    ensures room { OnOk result (length netlist.old.nets + length (as_vr_valid empty) ≤ MAX_NETS) }
    ensures too_many { IsErrOf result NetRefused.TooMany → MAX_NETS < length netlist.old.nets + length (as_vr_valid empty) }
    ensures refused { OnErr result (HasSome netlist.old netlist.new (as_vr_valid empty)) }
{
    let net = netlist.len() as u32;
    match push_nets(netlist, &[Net::Not(empty)]) {
        Ok(()) => Ok(net),
        Err(refused) => Err(refused),
    }
}

/// Adds the net of `rden` of an as_vr, of the ready of its output and its own valid net, and tells its number.
pub fn push_as_vr_rden(netlist: &mut Netlist, ready: u32, valid: u32) -> Result<u32, NetRefused>
    requires ready { Carries netlist.old ready 1 }
    requires valid { Carries netlist.old valid 1 }
    ensures pushed { OnOk result (netlist.new ≡ with_nets netlist.old (as_vr_rden ready valid)) }
    ensures number { IfOk result (λ net. net ≡ length netlist.old.nets) }
    ensures room { OnOk result (length netlist.old.nets + length (as_vr_rden ready valid) ≤ MAX_NETS) }
    ensures too_many { IsErrOf result NetRefused.TooMany → MAX_NETS < length netlist.old.nets + length (as_vr_rden ready valid) }
    ensures refused { OnErr result (HasSome netlist.old netlist.new (as_vr_rden ready valid)) }
{
    let net = netlist.len() as u32;
    match push_nets(netlist, &[Net::And(ready, valid)]) {
        Ok(()) => Ok(net),
        Err(refused) => Err(refused),
    }
}

/// An as_fifo whose net stands in a complete netlist obeys its law in every run. It does nothing when it runs.
pub fn as_fifos_obey()
    ensures { AsFifosObey }
{}

/// An as_vr whose nets stand in a complete netlist obeys its law in every run, and reads only where there is something to
/// read. It does nothing when it runs.
pub fn as_vrs_obey()
    ensures { AsVrsObey }
{}
