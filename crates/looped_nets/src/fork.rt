//! Each word to several branches.
ghost use Rattle.std.specs.Prelude.{◌≡◌, ◌+◌, ◌<◌, ◌≤◌, length, IfOk, OnOk, OnErr, IsErrOf};
ghost use Rattle.net_lists.specs.Lists.{with_nets, HasSome};
ghost use Rattle.looped_nets.specs.Loops.{CanLinkAll};
ghost use Rattle.looped_nets.specs.Forks.{fork_registers, fork_front, fork_back, fork_next, fork_linked, flag_register, flag_next, AreBranches, IsForkFrontReady, IsForkBackReady, IsForkReady, ForksObey};

use esi_base::{List, NoMemory, Word};
use net_lists::push_nets;
use netlist::{MAX_NETS, Net, NetRefused, Netlist};
use std::alloc::Global;

/// The nets between which a fork stands, apart from the ready nets of its branches, and those that it has so far.
#[derive(Clone, Copy, Debug)]
pub struct ForkPlaces {
    /// The valid net of its input.
    pub valid: u32,
    /// The word of its input, and of each branch.
    pub word: u32,
    /// The first of its registers, one for each branch.
    pub registers: u32,
    /// The first of its forward nets. The valid net of branch i is number 2 * i + 1 of them.
    pub forward: u32,
    /// The first of its backward nets. The last one is the ready net of its input.
    pub backward: u32,
}

/// Adds the registers of a fork, one of one bit for each branch, and tells the number of the first one. They are the flags
/// that say which branches have had the word at the input.
pub fn push_fork_registers(
    alloc: Global,
    netlist: &mut Netlist,
    branches: u32,
) -> Result<u32, NetRefused>
    requires { AreBranches branches }
    ensures pushed { OnOk result (netlist.new ≡ with_nets netlist.old (fork_registers branches)) }
    ensures number { IfOk result (λ first. first ≡ length netlist.old.nets) }
    ensures room { OnOk result (length netlist.old.nets + length (fork_registers branches) ≤ MAX_NETS) }
    ensures too_many { IsErrOf result NetRefused.TooMany → MAX_NETS < length netlist.old.nets + length (fork_registers branches) }
    ensures refused { OnErr result (HasSome netlist.old netlist.new (fork_registers branches)) }
{
    let first = netlist.len() as u32;
    match list_registers(alloc, branches) {
        Ok(nets) => match push_nets(netlist, nets.as_slice()) {
            Ok(()) => Ok(first),
            Err(refused) => Err(refused),
        },
        Err(_) => Err(NetRefused::NoMemory),
    }
}

/// Adds the forward nets of a fork of so many branches, and tells the number of the first one: for each branch one net, and
/// then the one of its valid, which is 1 where the input is valid and the branch has not had the word.
pub fn push_fork_forward(
    alloc: Global,
    netlist: &mut Netlist,
    branches: u32,
    registers: u32,
    valid: u32,
) -> Result<u32, NetRefused>
    requires { IsForkFrontReady netlist.old branches registers valid }
    ensures pushed { OnOk result (netlist.new ≡ with_nets netlist.old (fork_front branches registers valid (length netlist.old.nets))) }
    ensures number { IfOk result (λ first. first ≡ length netlist.old.nets) }
    ensures room { OnOk result (length netlist.old.nets + length (fork_front branches registers valid (length netlist.old.nets)) ≤ MAX_NETS) }
    ensures too_many { IsErrOf result NetRefused.TooMany → MAX_NETS < length netlist.old.nets + length (fork_front branches registers valid (length netlist.old.nets)) }
    ensures refused { OnErr result (HasSome netlist.old netlist.new (fork_front branches registers valid (length netlist.old.nets))) }
{
    let first = netlist.len() as u32;
    match list_forward(alloc, branches, registers, valid, first) {
        Ok(nets) => match push_nets(netlist, nets.as_slice()) {
            Ok(()) => Ok(first),
            Err(refused) => Err(refused),
        },
        Err(_) => Err(NetRefused::NoMemory),
    }
}

/// Adds the backward nets of a fork whose branches have these ready nets, and tells the number of the first one. The last one
/// is the ready net of its input, which is 1 where each branch has had the word or takes it.
pub fn push_fork_ready(
    alloc: Global,
    netlist: &mut Netlist,
    registers: u32,
    readies: &[u32],
) -> Result<u32, NetRefused>
    requires { IsForkBackReady netlist.old registers readies.now }
    ensures pushed { OnOk result (netlist.new ≡ with_nets netlist.old (fork_back registers readies.now (length netlist.old.nets))) }
    ensures number { IfOk result (λ first. first ≡ length netlist.old.nets) }
    ensures room { OnOk result (length netlist.old.nets + length (fork_back registers readies.now (length netlist.old.nets)) ≤ MAX_NETS) }
    ensures too_many { IsErrOf result NetRefused.TooMany → MAX_NETS < length netlist.old.nets + length (fork_back registers readies.now (length netlist.old.nets)) }
    ensures refused { OnErr result (HasSome netlist.old netlist.new (fork_back registers readies.now (length netlist.old.nets))) }
{
    let first = netlist.len() as u32;
    match list_backward(alloc, registers, readies, first) {
        Ok(nets) => match push_nets(netlist, nets.as_slice()) {
            Ok(()) => Ok(first),
            Err(refused) => Err(refused),
        },
        Err(_) => Err(NetRefused::NoMemory),
    }
}

/// Adds the nets of what the flags of a fork are in the next cycle, sets them as the next nets of its registers, and tells the
/// number of the first one. `readies` are the ready nets of its branches.
pub fn push_fork_next(
    alloc: Global,
    netlist: &mut Netlist,
    fork: ForkPlaces,
    readies: &[u32],
) -> Result<u32, NetRefused>
    requires { IsForkReady netlist.old fork readies.now }
    ensures pushed { let at = length netlist.old.nets in OnOk result (netlist.new ≡ fork_linked (with_nets netlist.old (fork_next fork readies.now at)) fork.registers at (length readies.now)) }
    ensures number { IfOk result (λ first. first ≡ length netlist.old.nets) }
    ensures room { OnOk result (length netlist.old.nets + length (fork_next fork readies.now (length netlist.old.nets)) ≤ MAX_NETS) }
    ensures too_many { IsErrOf result NetRefused.TooMany → MAX_NETS < length netlist.old.nets + length (fork_next fork readies.now (length netlist.old.nets)) }
    ensures refused { OnErr result (HasSome netlist.old netlist.new (fork_next fork readies.now (length netlist.old.nets))) }
{
    let at = netlist.len() as u32;
    match push_flag_operators(alloc, netlist, fork, readies, at) {
        Ok(()) => {
            link_flags(netlist, fork.registers, at, readies.len() as u32);
            Ok(at)
        }
        Err(refused) => Err(refused),
    }
}

/// The nets of what the flags are next, without a register's next net.
fn push_flag_operators(
    alloc: Global,
    netlist: &mut Netlist,
    fork: ForkPlaces,
    readies: &[u32],
    at: u32,
) -> Result<(), NetRefused>
    requires place { at ≡ length netlist.old.nets }
    requires ready { IsForkReady netlist.old fork readies.now }
    ensures pushed { OnOk result (netlist.new ≡ with_nets netlist.old (fork_next fork readies.now at)) }
    ensures link { OnOk result (CanLinkAll netlist.new (flag_register fork.registers) (flag_next at) (length readies.now)) }
    ensures room { OnOk result (length netlist.old.nets + length (fork_next fork readies.now at) ≤ MAX_NETS) }
    ensures too_many { IsErrOf result NetRefused.TooMany → MAX_NETS < length netlist.old.nets + length (fork_next fork readies.now at) }
    ensures refused { OnErr result (HasSome netlist.old netlist.new (fork_next fork readies.now at)) }
{
    let _count = netlist.len();
    match list_flags(alloc, fork, readies, at) {
        Ok(nets) => push_nets(netlist, nets.as_slice()),
        Err(_) => Err(NetRefused::NoMemory),
    }
}

/// Sets the next nets of a fork's registers.
fn link_flags(netlist: &mut Netlist, registers: u32, at: u32, branches: u32)
    requires few { AreBranches branches }
    requires places { (registers ≤ MAX_NETS) × (at ≤ MAX_NETS) }
    requires link { CanLinkAll netlist.old (flag_register registers) (flag_next at) branches }
    ensures { netlist.new ≡ fork_linked netlist.old registers at branches }
{
    for branch in 0..branches {
        netlist.set_next(registers + branch, at + 2 + 3 * branch + 2);
    }
}

/// The registers of so many branches.
fn list_registers(alloc: Global, branches: u32) -> Result<List<Net>, NoMemory>
    ensures { IfOk result (λ nets. nets ≡ fork_registers branches) }
{
    let mut nets = List::new(alloc);
    for _branch in 0..branches {
        nets.add(Net::Register {
            reset: Word::zero(1),
        })?;
    }
    Ok(nets)
}

/// The forward nets of so many branches, from a place on.
fn list_forward(
    alloc: Global,
    branches: u32,
    registers: u32,
    valid: u32,
    at: u32,
) -> Result<List<Net>, NoMemory>
    requires few { AreBranches branches }
    requires places { (registers ≤ MAX_NETS) × (at ≤ MAX_NETS) }
    ensures { IfOk result (λ nets. nets ≡ fork_front branches registers valid at) }
{
    let mut nets = List::new(alloc);
    for branch in 0..branches {
        nets.push_all(&[
            Net::Not(registers + branch),
            Net::And(valid, at + 2 * branch),
        ])?;
    }
    Ok(nets)
}

/// The backward nets of branches with these ready nets, from a place on.
fn list_backward(
    alloc: Global,
    registers: u32,
    readies: &[u32],
    at: u32,
) -> Result<List<Net>, NoMemory>
    requires few { AreBranches (length readies.now) }
    requires places { (registers ≤ MAX_NETS) × (at ≤ MAX_NETS) }
    ensures { IfOk result (λ nets. nets ≡ fork_back registers readies.now at) }
{
    let branches = readies.len() as u32;
    let mut nets = List::new(alloc);
    for branch in 0..branches {
        nets.add(Net::Or(registers + branch, readies[branch as usize]))?;
    }
    let mut last = at;
    for link in 0..branches - 1 {
        nets.add(Net::And(last, at + link + 1))?;
        last = at + branches + link;
    }
    Ok(nets)
}

/// The nets of what the flags are next, from a place on.
fn list_flags(
    alloc: Global,
    fork: ForkPlaces,
    readies: &[u32],
    at: u32,
) -> Result<List<Net>, NoMemory>
    requires few { AreBranches (length readies.now) }
    requires places { (fork.registers ≤ MAX_NETS) × (fork.forward ≤ MAX_NETS) × (fork.backward ≤ MAX_NETS) × (at ≤ MAX_NETS) }
    ensures { IfOk result (λ nets. nets ≡ fork_next fork readies.now at) }
{
    let branches = readies.len() as u32;
    let room = fork.backward + branches + (branches - 2);
    let mut nets = List::new(alloc);
    nets.push_all(&[Net::And(fork.valid, room), Net::Not(at)])?;
    for branch in 0..branches {
        let place = at + 2 + 3 * branch;
        nets.push_all(&[
            Net::And(fork.forward + 2 * branch + 1, readies[branch as usize]),
            Net::Or(fork.registers + branch, place),
            Net::And(at + 1, place + 1),
        ])?;
    }
    Ok(nets)
}

/// A fork whose nets stand in a complete netlist obeys its law in every run. It does nothing when it runs.
pub fn forks_obey()
    ensures { ForksObey }
{}
