//! The inputs of the ports.
ghost use Rattle.std.specs.Prelude.{◌≡◌, ◌+◌, ◌<◌, length, OnOk, IsErrOf};
ghost use Rattle.netlist.specs.declared.net.Net.TheVariants.{Input};
ghost use Rattle.netlist.specs.Plans.{IsWidth};
ghost use Rattle.channel_lower.specs.Lowering.{server_turn, client_turn};

use crate::lowering::Lowering;
use buffer_stage::Wire;
use net_lists::push_nets;
use netlist::{MAX_NETS, Net, NetRefused};

/// The inputs valid and word of a to-server channel.
pub(crate) fn push_server(lowering: &mut Lowering, width: u32) -> Result<(), NetRefused>
    requires { IsWidth width }
    ensures pushed { OnOk result (lowering.new ≡ server_turn width lowering.old) }
    ensures too_many { IsErrOf result NetRefused.TooMany → MAX_NETS < length lowering.old.netlist.nets + 2 }
{
    let valid = lowering.netlist.len() as u32;
    match push_nets(
        &mut lowering.netlist,
        &[Net::Input { width: 1 }, Net::Input { width }],
    ) {
        Ok(()) => {}
        Err(refused) => return Err(refused),
    }
    let wire = Wire {
        valid,
        word: valid + 1,
    };
    if lowering.wires.push(wire).is_err() {
        return Err(NetRefused::NoMemory);
    }
    Ok(())
}

/// The input ready of a to-client channel.
pub(crate) fn push_client(lowering: &mut Lowering, channel: usize) -> Result<(), NetRefused>
    requires { channel < length lowering.old.readies }
    ensures pushed { OnOk result (lowering.new ≡ client_turn channel lowering.old) }
    ensures too_many { IsErrOf result NetRefused.TooMany → MAX_NETS < length lowering.old.netlist.nets + 1 }
{
    let ready = lowering.netlist.len() as u32;
    match push_nets(&mut lowering.netlist, &[Net::Input { width: 1 }]) {
        Ok(()) => {}
        Err(refused) => return Err(refused),
    }
    let _none_before = lowering.readies.set(channel, ready);
    Ok(())
}
