//! The registers of a netlist: their numbers, and the words that they hold.
ghost use Rattle.std.specs.Prelude.{◌≡◌, ◌+◌, ◌<◌, ◌^◌, ◌++◌, ◌∷◌, [], if◌then◌else◌, IfOk, OnOk, length, map};
ghost use Rattle.netlist.specs.Nets.{is_register, word_at};
ghost use Rattle.netlist.specs.Runs.{registers_after};
ghost use Rattle.session_rules.specs.Registers.{register_places};

use cycle_sim::Sim;
use esi_base::{List, NoMemory, Word};
use netlist::{Net, Sealed};
use std::alloc::Global;

/// The numbers of the registers of a netlist, in order.
pub(crate) fn places_of_registers(alloc: Global, net: &Sealed) -> Result<List<u32>, NoMemory>
    ensures { IfOk result (λ places. places ≡ register_places 0 net.now.nets) }
{
    let places = places_in(alloc, net.nets().as_slice())?;
    Ok(places)
}

/// The numbers of the registers among nets, in order.
fn places_in(alloc: Global, nets: &[Net]) -> Result<List<u32>, NoMemory>
    requires { length nets.now < 2 ^ 32 }
    ensures { IfOk result (λ places. places ≡ register_places 0 nets.now) }
{
    let mut places = List::new(alloc);
    for place in 0..nets.len() {
        note_register(&mut places, &nets[place], place as u32)?;
    }
    Ok(places)
}

/// Notes a number where a register stands there.
fn note_register(places: &mut List<u32>, net: &Net, place: u32) -> Result<(), NoMemory>
    ensures { OnOk result (places.new ≡ places.old ++ (if is_register net.now then place ∷ [] else [])) }
{
    if net.is_register() {
        places.add(place)?;
    }
    Ok(())
}

/// The words that the registers hold, whose numbers these are.
pub(crate) fn held_by(alloc: Global, sim: &Sim, registers: &[u32]) -> Result<List<Word>, NoMemory>
    requires { registers.now ≡ register_places 0 sim.now.plan.nets }
    ensures { IfOk result (λ words. words ≡ map (word_at (registers_after sim.now.plan sim.now.last)) registers.now) }
{
    let mut words = List::new(alloc);
    for register in registers {
        words.add(sim.register(*register))?;
    }
    Ok(words)
}
