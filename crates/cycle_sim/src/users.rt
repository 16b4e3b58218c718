//! Which nets use each net.
ghost use Rattle.std.specs.Prelude.{◌≡◌, ◌<◌, [], IfOk, OnOk, length, replicate};
ghost use Rattle.netlist.specs.Nets.{sources};
ghost use Rattle.netlist.specs.Plans.{net_at};
ghost use Rattle.cycle_sim.specs.Wired.{users_at, reads, AreUsers};
ghost use Rattle.cycle_sim.specs.Users.{noted, noted_all};

use esi_base::{List, NoMemory};
use netlist::{Sealed, Sources};
use std::alloc::Global;
use std::marker::Model;

/// For each net the nets that have their word from it. Contracts see a list of lists.
#[derive(Drop)]
pub(crate) struct Users {
    lists: Vec<List<u32>>,
}

impl Model for Users {
    ghost use Rattle.std.specs.Prelude.{List, ℕ};

    ghost Value = { List (List ℕ) };

    ghost view = { λ u. u.lists.items };
}

impl Users {
    /// The users of each net of a netlist.
    pub fn new(alloc: Global, net: &Sealed) -> Result<Users, NoMemory>
        ensures { IfOk result (λ users. AreUsers net.now users) }
    {
        let count = net.nets().len();
        let mut lists = empty_lists(alloc, count)?;
        for user in 0..count {
            note_user(net, &mut lists, user as u32)?;
        }
        Ok(Users { lists })
    }

    /// The users of a net.
    pub fn of(&self, net: usize) -> &[u32]
        requires { net < length self.now }
        ensures { result.now ≡ users_at self.now net }
    {
        let users = &self.lists[net];
        users.as_slice()
    }
}

/// As many empty lists.
fn empty_lists(alloc: Global, count: usize) -> Result<Vec<List<u32>>, NoMemory>
    ensures { IfOk result (λ lists. lists.items ≡ replicate count []) }
{
    let mut lists = Vec::new(alloc);
    for _place in 0..count {
        lists.push(List::new(alloc))?;
    }
    Ok(lists)
}

/// Notes a net at each net from which it has its word.
fn note_user(net: &Sealed, lists: &mut Vec<List<u32>>, user: u32) -> Result<(), NoMemory>
    requires within { user < length net.now.nets }
    requires count { length lists.old.items ≡ length net.now.nets }
    ensures { OnOk result (lists.new.items ≡ noted_all lists.old.items (reads net.now user) user) }
{
    if net.nets().as_slice()[user as usize].is_register() {
        note(lists, net.next(user), user)
    } else {
        note_sources(net, lists, user)
    }
}

/// Notes a net at each of its sources.
fn note_sources(net: &Sealed, lists: &mut Vec<List<u32>>, user: u32) -> Result<(), NoMemory>
    requires within { user < length net.now.nets }
    requires count { length lists.old.items ≡ length net.now.nets }
    ensures { OnOk result (lists.new.items ≡ noted_all lists.old.items (sources (net_at net.now.nets user)) user) }
{
    match net.sources(user) {
        Sources::None => Ok(()),
        Sources::One(a) => note(lists, a, user),
        Sources::Two(a, b) => note_both(lists, a, b, user),
        Sources::Three(a, b, c) => {
            note_both(lists, a, b, user)?;
            note(lists, c, user)
        }
    }
}

/// Notes a user at two nets.
fn note_both(lists: &mut Vec<List<u32>>, first: u32, second: u32, user: u32) -> Result<(), NoMemory>
    requires first { first < length lists.old.items }
    requires second { second < length lists.old.items }
    ensures noted { OnOk result (lists.new.items ≡ noted (noted lists.old.items first user) second user) }
    ensures count { length lists.new.items ≡ length lists.old.items }
{
    note(lists, first, user)?;
    note(lists, second, user)
}

/// Notes a user at a net.
fn note(lists: &mut Vec<List<u32>>, net: u32, user: u32) -> Result<(), NoMemory>
    requires { net < length lists.old.items }
    ensures noted { OnOk result (lists.new.items ≡ noted lists.old.items net user) }
    ensures count { length lists.new.items ≡ length lists.old.items }
{
    let users = &mut lists[net as usize];
    if users.push(user).is_err() {
        return Err(NoMemory);
    }
    Ok(())
}
