//! Tests of what the calls of a netlist ask.
ghost use Rattle.std.specs.Prelude.{◌≡◌, ◌+◌, ◌<◌, ◌≤◌, IsTrue, IfSome, if◌then◌else◌, true, length};
ghost use Rattle.netlist.specs.Nets.{Fits, width_at, word_at, is_input};
ghost use Rattle.netlist.specs.Plans.{IsNextOf, net_at};
ghost use Rattle.netlist.specs.Settled.{AreInputs, AreHeld};

use esi_base::Word;
use netlist::{MAX_NUMBER_WIDTH, MAX_WIDTH, Net, Netlist, Sealed};

/// Whether a net may stand behind those of a netlist.
pub fn fits(netlist: &Netlist, net: &Net) -> bool
    ensures { IsTrue result → Fits net.now (length netlist.now.nets) netlist.now.widths }
{
    match net {
        Net::Input { width } => 1 <= *width && *width <= MAX_WIDTH,
        Net::Register { reset: _ } => true,
        Net::Const(_) => true,
        Net::Not(a) => stands(netlist, *a),
        Net::And(a, b) => are_alike(netlist, *a, *b),
        Net::Or(a, b) => are_alike(netlist, *a, *b),
        Net::Xor(a, b) => are_alike(netlist, *a, *b),
        Net::Add(a, b) => are_numbers(netlist, *a, *b),
        Net::Sub(a, b) => are_numbers(netlist, *a, *b),
        Net::Equal(a, b) => are_alike(netlist, *a, *b),
        Net::Less(a, b) => are_numbers(netlist, *a, *b),
        Net::Choose(test, one, other) => is_bit(netlist, *test) && are_alike(netlist, *one, *other),
        Net::Slice { of, high, low } => stands(netlist, *of)
            && *low <= *high
            && *high < netlist.width(*of),
        Net::Concat { high, low } => are_short(netlist, *high, *low),
    }
}

fn stands(netlist: &Netlist, net: u32) -> bool
    ensures { IsTrue result → net < length netlist.now.nets }
{
    (net as usize) < netlist.len()
}

fn is_bit(netlist: &Netlist, net: u32) -> bool
    ensures within { IsTrue result → net < length netlist.now.nets }
    ensures width { IsTrue result → width_at netlist.now.widths net ≡ 1 }
{
    stands(netlist, net) && netlist.width(net) == 1
}

fn are_alike(netlist: &Netlist, first: u32, second: u32) -> bool
    ensures first { IsTrue result → first < length netlist.now.nets }
    ensures second { IsTrue result → second < length netlist.now.nets }
    ensures same { IsTrue result → width_at netlist.now.widths first ≡ width_at netlist.now.widths second }
{
    stands(netlist, first)
        && stands(netlist, second)
        && netlist.width(first) == netlist.width(second)
}

fn are_numbers(netlist: &Netlist, first: u32, second: u32) -> bool
    ensures first { IsTrue result → first < length netlist.now.nets }
    ensures second { IsTrue result → second < length netlist.now.nets }
    ensures same { IsTrue result → width_at netlist.now.widths first ≡ width_at netlist.now.widths second }
    ensures narrow { IsTrue result → width_at netlist.now.widths first ≤ MAX_NUMBER_WIDTH }
{
    are_alike(netlist, first, second) && netlist.width(first) <= MAX_NUMBER_WIDTH
}

fn are_short(netlist: &Netlist, first: u32, second: u32) -> bool
    ensures first { IsTrue result → first < length netlist.now.nets }
    ensures second { IsTrue result → second < length netlist.now.nets }
    ensures short { IsTrue result → width_at netlist.now.widths first + width_at netlist.now.widths second ≤ MAX_WIDTH }
{
    stands(netlist, first)
        && stands(netlist, second)
        && netlist.width(first) + netlist.width(second) <= MAX_WIDTH
}

/// Whether a register may take its words from a net.
pub fn may_take(netlist: &Netlist, register: u32, next: u32) -> bool
    ensures { IsTrue result → IsNextOf netlist.now register next }
{
    are_alike(netlist, next, register) && netlist.nets().as_slice()[register as usize].is_register()
}

/// Whether words are those of the inputs of a netlist, one each, of its width.
pub fn are_inputs(net: &Sealed, inputs: &[Word]) -> bool
    ensures { IsTrue result → AreInputs net.now inputs.now }
{
    let mut given = 0;
    for at in 0..net.nets().len() {
        match next_given(net, at as u32, inputs, given) {
            Some(next) => given = next,
            None => return false,
        }
    }
    given == inputs.len()
}

/// How many inputs are given behind a net, where it has its word if it is one.
fn next_given(net: &Sealed, at: u32, inputs: &[Word], given: usize) -> Option<usize>
    requires within { at < length net.now.nets }
    requires small { given ≤ length inputs.now }
    ensures count { IfSome result (λ next. next ≡ (if is_input (net_at net.now.nets at) then given + 1 else given)) }
    ensures small { IfSome result (λ next. next ≤ length inputs.now) }
    ensures wide { IfSome result (λ next. is_input (net_at net.now.nets at) ≡ true → length (word_at inputs.now given) ≡ width_at net.now.widths at) }
{
    if !net.nets().as_slice()[at as usize].is_input() {
        Some(given)
    } else if given < inputs.len() && inputs[given].width() == net.width(at) {
        Some(given + 1)
    } else {
        None
    }
}

/// Whether words may stand for those of the registers of a netlist, each at its register's place.
pub fn are_held(net: &Sealed, held: &[Word]) -> bool
    ensures count { IsTrue result → length held.now ≡ length net.now.nets }
    ensures held { IsTrue result → AreHeld net.now held.now }
{
    let nets = net.nets().as_slice();
    if held.len() != nets.len() {
        return false;
    }
    for at in 0..nets.len() {
        if held[at].width() != net.width(at as u32) {
            return false;
        }
    }
    true
}
