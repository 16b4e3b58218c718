//! A join: a word of two channels each, joined.
ghost use Rattle.std.specs.Prelude.{◌≡◌, ◌+◌, ◌<◌, ◌≤◌, length, IfOk, OnOk, OnErr, IsErrOf};
ghost use Rattle.net_lists.specs.Lists.{with_nets, HasSome, Carries};
ghost use Rattle.element_nets.specs.Joins.{join_forward, join_backward, IsJoinReady};

use net_lists::push_nets;
use netlist::{MAX_NETS, Net, NetRefused, Netlist};

/// The nets of the two inputs of a join.
#[derive(Clone, Copy, Debug)]
pub struct JoinNets {
    /// The valid net of the left one.
    pub left_valid: u32,
    /// The word of the left one, whose bits stand above.
    pub left_word: u32,
    /// The valid net of the right one.
    pub right_valid: u32,
    /// The word of the right one.
    pub right_word: u32,
}

/// Adds the valid net and the word of a join's output, and tells the number of the first one.
pub fn push_join_forward(netlist: &mut Netlist, join: JoinNets) -> Result<u32, NetRefused>
    requires { IsJoinReady netlist.old join }
    ensures pushed { OnOk result (netlist.new ≡ with_nets netlist.old (join_forward join)) }
    ensures number { IfOk result (λ net. net ≡ length netlist.old.nets) }
    ensures room { OnOk result (length netlist.old.nets + length (join_forward join) ≤ MAX_NETS) }
    ensures too_many { IsErrOf result NetRefused.TooMany → MAX_NETS < length netlist.old.nets + length (join_forward join) }
    ensures refused { OnErr result (HasSome netlist.old netlist.new (join_forward join)) }
{
    let net = netlist.len() as u32;
    let nets = [
        Net::And(join.left_valid, join.right_valid),
        Net::Concat {
            high: join.left_word,
            low: join.right_word,
        },
    ];
    match push_nets(netlist, &nets) {
        Ok(()) => Ok(net),
        Err(refused) => Err(refused),
    }
}

/// Adds the ready nets of a join's inputs, first the left one's, and tells the number of the first one.
pub fn push_join_ready(netlist: &mut Netlist, join: JoinNets, ready: u32) -> Result<u32, NetRefused>
    requires ready { Carries netlist.old ready 1 }
    requires left { Carries netlist.old join.left_valid 1 }
    requires right { Carries netlist.old join.right_valid 1 }
    ensures pushed { OnOk result (netlist.new ≡ with_nets netlist.old (join_backward join ready)) }
    ensures number { IfOk result (λ net. net ≡ length netlist.old.nets) }
    ensures room { OnOk result (length netlist.old.nets + length (join_backward join ready) ≤ MAX_NETS) }
    ensures too_many { IsErrOf result NetRefused.TooMany → MAX_NETS < length netlist.old.nets + length (join_backward join ready) }
    ensures refused { OnErr result (HasSome netlist.old netlist.new (join_backward join ready)) }
{
    let net = netlist.len() as u32;
    match push_nets(
        netlist,
        &[
            Net::And(ready, join.right_valid),
            Net::And(ready, join.left_valid),
        ],
    ) {
        Ok(()) => Ok(net),
        Err(refused) => Err(refused),
    }
}
