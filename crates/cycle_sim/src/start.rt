//! What is made of a netlist before its first cycle.
ghost use Rattle.std.specs.Prelude.{◌≡◌, ◌+◌, ◌<◌, ◌^◌, ◌++◌, ◌∷◌, [], map, false, if◌then◌else◌, IfOk, OnOk, length};
ghost use Rattle.netlist.specs.Nets.{is_computed, is_input, is_register};
ghost use Rattle.netlist.specs.Plans.{IsWidth};
ghost use Rattle.cycle_sim.specs.Simulated.{rest_word, AreAtRest};
ghost use Rattle.cycle_sim.specs.Wired.{AreInputPlaces};

use esi_base::{List, NoMemory, Word};
use netlist::{Net, Sealed};
use std::alloc::Global;

/// Which nets are neither inputs nor registers.
pub(crate) fn computed_flags(alloc: Global, nets: &[Net]) -> Result<Vec<bool>, NoMemory>
    ensures { IfOk result (λ flags. flags.items ≡ map is_computed nets.now) }
{
    Ok(nets.iter().map(|net| net.is_computed()).collect(alloc)?)
}

/// Which nets are registers.
pub(crate) fn register_flags(alloc: Global, nets: &[Net]) -> Result<Vec<bool>, NoMemory>
    ensures { IfOk result (λ flags. flags.items ≡ map is_register nets.now) }
{
    Ok(nets.iter().map(|net| net.is_register()).collect(alloc)?)
}

/// No net.
pub(crate) fn no_flags(alloc: Global, nets: &[Net]) -> Result<Vec<bool>, NoMemory>
    ensures { IfOk result (λ flags. flags.items ≡ map (λ net. false) nets.now) }
{
    Ok(nets.iter().map(|_net| false).collect(alloc)?)
}

/// The places of the inputs, in order.
pub(crate) fn input_places(alloc: Global, nets: &[Net]) -> Result<List<u32>, NoMemory>
    requires { length nets.now < 2 ^ 32 }
    ensures { IfOk result (λ places. AreInputPlaces nets.now places) }
{
    let mut places = List::new(alloc);
    for place in 0..nets.len() {
        note_input(&mut places, &nets[place], place as u32)?;
    }
    Ok(places)
}

/// Notes a place where an input stands there.
fn note_input(places: &mut List<u32>, net: &Net, place: u32) -> Result<(), NoMemory>
    ensures { OnOk result (places.new ≡ (if is_input net.now then places.old ++ place ∷ [] else places.old)) }
{
    if net.is_input() && places.push(place).is_err() {
        return Err(NoMemory);
    }
    Ok(())
}

/// The words of all nets before the first cycle.
pub(crate) fn words_at_rest(alloc: Global, net: &Sealed) -> Result<List<Word>, NoMemory>
    ensures { IfOk result (λ words. AreAtRest net.now words) }
{
    let mut words = List::new(alloc);
    let nets = net.nets().as_slice();
    for place in 0..nets.len() {
        let word = word_at_rest(&nets[place], net.width(place as u32));
        if words.push(word).is_err() {
            return Err(NoMemory);
        }
    }
    Ok(words)
}

/// The word of a net of a width before the first cycle.
pub(crate) fn word_at_rest(net: &Net, width: u32) -> Word
    requires { IsWidth width }
    ensures { result ≡ rest_word net.now width }
{
    match net {
        Net::Register { reset } => *reset,
        _ => Word::zero(width),
    }
}
