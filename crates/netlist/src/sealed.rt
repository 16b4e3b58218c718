//! A netlist that is complete and changes no more.
ghost use Rattle.std.specs.Prelude.{◌≡◌, ◌↔◌, ◌+◌, ◌<◌, List, Some, length, map, IfOk, IsTrue};
ghost use Rattle.std.specs.List.{AllByRecursion};
ghost use Rattle.esi_base.specs.Bits.{number_of};
ghost use Rattle.netlist.specs.Narrow.{IsNarrow, AreNumbers};
ghost use Rattle.netlist.specs.Nets.{Bits, is_computed, sources, width_at, result_of};
ghost use Rattle.netlist.specs.Sources.{listed};
ghost use Rattle.netlist.specs.Plans.{net_at, is_register_at, next_of, HasAllNexts, IsComplete, IsWidth};

use crate::net::{Net, Sources};
use crate::netlist::Netlist;
use crate::steps::Steps;
use esi_base::{List, NoMemory, Word};
use std::alloc::Global;
use std::marker::Model;
use std::sync::ledger::Ledger;

/// A netlist in which each register has its next net. It keeps that each net reads nets before it
/// alone, that widths fit, and that it is complete.
#[derive(Drop)]
pub struct Sealed {
    netlist: Netlist,
}

impl Model for Sealed {
    ghost use Rattle.netlist.specs.Plans.{Plan, HasAllNexts};

    ghost Value = { Plan };

    ghost view = { λ s. s.netlist };

    ghost invariant = { λ s. HasAllNexts s.netlist };
}

impl Sealed {
    /// A netlist, sealed.
    pub(crate) fn of(netlist: Netlist) -> Sealed
        requires { HasAllNexts netlist }
        ensures { result ≡ netlist }
    {
        Sealed { netlist }
    }

    /// The netlist.
    pub(crate) fn netlist(&self) -> &Netlist
        ensures { result.now ≡ self.now }
    {
        &self.netlist
    }

    /// The nets in order.
    pub fn nets(&self) -> &List<Net>
        ensures nets { result.now ≡ self.now.nets }
        ensures kept { IsComplete self.now }
    {
        self.netlist.nets()
    }

    /// The nets that a net reads within a cycle, in the order of its fields, all of which stand before it.
    pub fn sources(&self, id: u32) -> Sources
        requires { id < length self.now.nets }
        ensures nets { listed result ≡ sources (net_at self.now.nets id) }
        ensures before { AllByRecursion (λ source. source < id) (listed result) }
    {
        self.netlist.sources(id)
    }

    /// The net from which a register takes its word in each next cycle.
    pub fn next(&self, register: u32) -> u32
        requires { IsTrue (is_register_at self.now.nets register) }
        ensures next { next_of self.now register ≡ Some result }
        ensures within { result < length self.now.nets }
        ensures same { width_at self.now.widths result ≡ width_at self.now.widths register }
    {
        match self.netlist.next(register) {
            Some(next) => next,
            None => 0,
        }
    }

    /// How wide a net is, in bits.
    pub fn width(&self, net: u32) -> u32
        requires { net < length self.now.nets }
        ensures width { result ≡ width_at self.now.widths net }
        ensures wide { IsWidth result }
    {
        self.netlist.width(net)
    }

    /// A netlist of the same nets.
    pub fn copy(&self, alloc: Global) -> Result<Sealed, NoMemory>
        ensures { IfOk result (λ copy. copy ≡ self.now) }
    {
        let netlist = self.netlist.copy(alloc)?;
        Ok(Sealed { netlist })
    }

    /// The word of a net that is neither an input nor a register, given its sources' words in the order
    /// of its fields, each of its source's width. It is one step, and takes no memory.
    pub fn evaluate<L: Ledger>(&self, id: u32, words: &[Word], steps: &mut Steps<L>) -> Word
        requires computed { IsTrue (is_computed (net_at self.now.nets id)) }
        requires within { id < length self.now.nets }
        requires operands { map length words.now ≡ map (width_at self.now.widths) (sources (net_at self.now.nets id)) }
        ensures word { result ≡ result_of (net_at self.now.nets id) words.now }
        ensures width { length result ≡ width_at self.now.widths id }
        ensures step { steps.new ≡ steps.old + 1 }
    {
        steps.tick();
        self.netlist.evaluated(id, words)
    }

    /// Whether a net and those that it reads are at most `MAX_NUMBER_WIDTH` bits wide, so that the words of
    /// all of them are numbers of 64 bits.
    pub fn is_narrow(&self, id: u32) -> bool
        requires { id < length self.now.nets }
        ensures { IsTrue result ↔ IsNarrow self.now id }
    {
        self.netlist.is_narrow(id)
    }

    /// What `evaluate` gives, where the net is narrow, as a number: from the numbers of its sources' words
    /// in the order of its fields to the number of its word. Where it reads fewer than three nets, the
    /// further numbers mean nothing. It is one step, and takes no memory.
    pub fn evaluate_narrow<L: Ledger>(
        &self,
        id: u32,
        first: u64,
        second: u64,
        third: u64,
        steps: &mut Steps<L>,
    ) -> u64
        requires computed { IsTrue (is_computed (net_at self.now.nets id)) }
        requires within { id < length self.now.nets }
        requires narrow { IsNarrow self.now id }
        ensures word { (words : List Bits) → map length words ≡ map (width_at self.now.widths) (sources (net_at self.now.nets id)) → AreNumbers words first second third
            → result ≡ number_of (result_of (net_at self.now.nets id) words) }
        ensures step { steps.new ≡ steps.old + 1 }
    {
        steps.tick();
        self.netlist.number(id, first, second, third)
    }
}
