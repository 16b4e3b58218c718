//! A netlist that is being built.
ghost use Rattle.std.specs.Prelude.{◌≡◌, ◌↔◌, ◌<◌, ◌≤◌, ◌&&◌, [], List, All, length, map, is_none, IfOk, OnOk, OnErr, IsErrOf, IsTrue};
ghost use Rattle.std.specs.List.{AllByRecursion};
ghost use Rattle.esi_base.specs.Bits.{number_of};
ghost use Rattle.netlist.specs.Narrow.{IsNarrow, AreNumbers};
ghost use Rattle.netlist.specs.Nets.{Bits, Fits, width_at, width_in, is_register, is_computed, sources, result_of};
ghost use Rattle.netlist.specs.Sources.{listed};
ghost use Rattle.netlist.specs.Plans.{empty_plan, with_net, with_next, net_at, next_of, IsPlan, IsNextOf, HasAllNexts, IsWidth};

use crate::evaluation::evaluated;
use crate::limits::{MAX_NETS, MAX_NUMBER_WIDTH};
use crate::narrow::number;
use crate::net::{Net, Sources};
use crate::sealed::Sealed;
use esi_base::{List, Word};
use std::alloc::{AllocError, Global};
use std::marker::Model;

/// Why a net was not added.
#[derive(Clone, Copy, Debug, PartialEq, Eq)]
pub enum NetRefused {
    /// As many nets stand as a netlist ever has.
    TooMany,
    /// Memory could not be had.
    NoMemory,
}

/// Nets in order, each of which reads nets before it alone, of widths that fit its operator. Contracts
/// see the nets, their widths, and the next nets of registers, as far as they are set.
#[derive(Drop)]
pub struct Netlist {
    nets: List<Net>,
    widths: List<u32>,
    nexts: List<Option<u32>>,
}

impl Model for Netlist {
    ghost use Rattle.netlist.specs.Plans.{Plan, IsPlan};

    ghost Value = { Plan };

    ghost view = { λ n. record { nets = n.nets; widths = n.widths; nexts = n.nexts } };

    ghost invariant = { λ n. IsPlan (record { nets = n.nets; widths = n.widths; nexts = n.nexts }) };
}

impl Netlist {
    /// A netlist without nets. It takes no memory.
    pub fn new(alloc: Global) -> Netlist
        ensures { result ≡ empty_plan }
    {
        Netlist {
            nets: List::new(alloc),
            widths: List::new(alloc),
            nexts: List::new(alloc),
        }
    }

    /// Adds a net at the end, and tells its number. The nets that it reads have to stand before it, and
    /// their widths to fit its operator. It is refused where `MAX_NETS` nets stand; a refusal changes
    /// nothing.
    pub fn push(&mut self, net: Net) -> Result<u32, NetRefused>
        requires { Fits net (length self.old.nets) self.old.widths }
        ensures pushed { OnOk result (self.new ≡ with_net self.old net) }
        ensures number { IfOk result (λ id. id ≡ length self.old.nets) }
        ensures too_many { IsErrOf result NetRefused.TooMany ↔ (length self.old.nets ≡ MAX_NETS) }
        ensures refused { OnErr result (self.new ≡ self.old) }
    {
        let count = self.nets.len();
        if count >= MAX_NETS {
            return Err(NetRefused::TooMany);
        }
        let width = width_of(&net, self.widths.as_slice());
        if self.widths.push(width).is_err() {
            return Err(NetRefused::NoMemory);
        }
        if self.nexts.push(None).is_err() {
            self.widths.truncate(count);
            return Err(NetRefused::NoMemory);
        }
        if self.nets.push(net).is_err() {
            self.widths.truncate(count);
            self.nexts.truncate(count);
            return Err(NetRefused::NoMemory);
        }
        Ok(count as u32)
    }

    /// Sets the net from which a register takes its word in each next cycle: any net that there is, of
    /// the register's width.
    pub fn set_next(&mut self, register: u32, next: u32)
        requires { IsNextOf self.old register next }
        ensures { self.new ≡ with_next self.old register next }
    {
        let _none_before = self.nexts.set(register as usize, Some(next));
    }

    /// Whether each register has its next net.
    pub fn is_complete(&self) -> bool
        ensures { IsTrue result ↔ HasAllNexts self.now }
    {
        let nets = self.nets.as_slice();
        let nexts = self.nexts.as_slice();
        for at in 0..nets.len() {
            if lacks_next(&nets[at], nexts[at]) {
                return false;
            }
        }
        true
    }

    /// The netlist as one that changes no more. Each register has to have its next net.
    pub fn seal(self) -> Sealed
        requires { HasAllNexts self }
        ensures { result ≡ self }
    {
        Sealed::of(self)
    }

    /// How wide a net is, in bits.
    pub fn width(&self, net: u32) -> u32
        requires { net < length self.now.nets }
        ensures width { result ≡ width_at self.now.widths net }
        ensures wide { IsWidth result }
    {
        self.widths.as_slice()[net as usize]
    }

    /// How many nets stand.
    pub fn len(&self) -> usize
        ensures count { result ≡ length self.now.nets }
        ensures kept { IsPlan self.now }
    {
        self.nets.len()
    }

    /// Whether no net stands.
    pub fn is_empty(&self) -> bool
        ensures { IsTrue result ↔ (self.now.nets ≡ []) }
    {
        self.nets.is_empty()
    }

    /// The nets in order.
    pub fn nets(&self) -> &List<Net>
        ensures nets { result.now ≡ self.now.nets }
        ensures kept { IsPlan self.now }
    {
        &self.nets
    }

    /// The nets that a net reads, all of which stand before it.
    pub(crate) fn sources(&self, id: u32) -> Sources
        requires { id < length self.now.nets }
        ensures nets { listed result ≡ sources (net_at self.now.nets id) }
        ensures before { AllByRecursion (λ source. source < id) (listed result) }
        ensures kept { IsPlan self.now }
    {
        let nets = self.nets.as_slice();
        nets[id as usize].sources()
    }

    /// The next net of a register, where it is set.
    pub(crate) fn next(&self, register: u32) -> Option<u32>
        requires { register < length self.now.nets }
        ensures next { result ≡ next_of self.now register }
        ensures kept { IsPlan self.now }
    {
        self.nexts.as_slice()[register as usize]
    }

    /// The word of a net that is neither an input nor a register, given its sources' words in the order
    /// of its fields, each of its source's width.
    pub(crate) fn evaluated(&self, id: u32, words: &[Word]) -> Word
        requires computed { IsTrue (is_computed (net_at self.now.nets id)) }
        requires within { id < length self.now.nets }
        requires operands { map length words.now ≡ map (width_at self.now.widths) (sources (net_at self.now.nets id)) }
        ensures word { result ≡ result_of (net_at self.now.nets id) words.now }
        ensures width { length result ≡ width_at self.now.widths id }
    {
        let nets = self.nets.as_slice();
        evaluated(&nets[id as usize], words)
    }

    /// Whether a net and those that it reads are at most `MAX_NUMBER_WIDTH` bits wide.
    pub(crate) fn is_narrow(&self, id: u32) -> bool
        requires { id < length self.now.nets }
        ensures { IsTrue result ↔ IsNarrow self.now id }
    {
        let nets = self.nets.as_slice();
        let widths = self.widths.as_slice();
        are_narrow(&nets[id as usize], widths[id as usize], widths)
    }

    /// The number of the word of a net that is neither an input nor a register, given the numbers of its
    /// sources' words in the order of its fields.
    pub(crate) fn number(&self, id: u32, a: u64, b: u64, c: u64) -> u64
        requires within { id < length self.now.nets }
        requires computed { IsTrue (is_computed (net_at self.now.nets id)) }
        requires narrow { IsNarrow self.now id }
        ensures { (words : List Bits) → map length words ≡ map (width_at self.now.widths) (sources (net_at self.now.nets id)) → AreNumbers words a b c
            → result ≡ number_of (result_of (net_at self.now.nets id) words) }
    {
        let nets = self.nets.as_slice();
        number(&nets[id as usize], self.widths.as_slice(), a, b, c)
    }

    /// A netlist of the same nets, widths and next nets.
    pub(crate) fn copy(&self, alloc: Global) -> Result<Netlist, AllocError>
        ensures { IfOk result (λ copy. copy ≡ self.now) }
    {
        let nets = List::from_slice(alloc, self.nets.as_slice())?;
        let widths = List::from_slice(alloc, self.widths.as_slice())?;
        let nexts = List::from_slice(alloc, self.nexts.as_slice())?;
        Ok(Netlist {
            nets,
            widths,
            nexts,
        })
    }
}

/// How wide a net is that stands behind nets of these widths.
fn width_of(net: &Net, widths: &[u32]) -> u32
    requires fits { Fits net.now (length widths.now) widths.now }
    requires each { All IsWidth widths.now }
    ensures width { result ≡ width_in net.now widths.now }
    ensures wide { IsWidth result }
{
    match net {
        Net::Input { width } => *width,
        Net::Register { reset } => reset.width(),
        Net::Const(word) => word.width(),
        Net::Not(a) => widths[*a as usize],
        Net::And(a, _) => widths[*a as usize],
        Net::Or(a, _) => widths[*a as usize],
        Net::Xor(a, _) => widths[*a as usize],
        Net::Add(a, _) => widths[*a as usize],
        Net::Sub(a, _) => widths[*a as usize],
        Net::Equal(_, _) => 1,
        Net::Less(_, _) => 1,
        Net::Choose(_, yes, _) => widths[*yes as usize],
        Net::Slice { of: _, high, low } => *high - *low + 1,
        Net::Concat { high, low } => widths[*high as usize] + widths[*low as usize],
    }
}

/// Whether a net of a width and those that it reads are at most `MAX_NUMBER_WIDTH` bits wide.
fn are_narrow(net: &Net, width: u32, widths: &[u32]) -> bool
    requires { AllByRecursion (λ source. source < length widths.now) (sources net.now) }
    ensures { IsTrue result ↔ ((width ≤ MAX_NUMBER_WIDTH) × AllByRecursion (λ source. width_at widths.now source ≤ MAX_NUMBER_WIDTH) (sources net.now)) }
{
    width <= MAX_NUMBER_WIDTH && reads_narrow(net, widths)
}

/// Whether the nets that a net reads are at most `MAX_NUMBER_WIDTH` bits wide.
fn reads_narrow(net: &Net, widths: &[u32]) -> bool
    requires { AllByRecursion (λ source. source < length widths.now) (sources net.now) }
    ensures { IsTrue result ↔ AllByRecursion (λ source. width_at widths.now source ≤ MAX_NUMBER_WIDTH) (sources net.now) }
{
    match net.sources() {
        Sources::None => true,
        Sources::One(a) => widths[a as usize] <= MAX_NUMBER_WIDTH,
        Sources::Two(a, b) => {
            widths[a as usize] <= MAX_NUMBER_WIDTH && widths[b as usize] <= MAX_NUMBER_WIDTH
        }
        Sources::Three(a, b, c) => {
            widths[a as usize] <= MAX_NUMBER_WIDTH
                && widths[b as usize] <= MAX_NUMBER_WIDTH
                && widths[c as usize] <= MAX_NUMBER_WIDTH
        }
    }
}

/// Whether a net is a register whose next net is not set.
fn lacks_next(net: &Net, next: Option<u32>) -> bool
    ensures { result ≡ (is_register net.now && is_none next) }
{
    net.is_register() && next.is_none()
}
