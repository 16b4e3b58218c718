//! What follows the takes of a cycle.
ghost use Rattle.std.specs.Prelude.{◌≡◌, ◌-◌, ◌^◌, ◌<◌, length, OnOk};
ghost use Rattle.netlist.specs.Runs.{registers_after};
ghost use Rattle.session_rules.specs.Kept.{IsKept};
ghost use Rattle.session_rules.specs.Running.{Keeps};
ghost use Rattle.cosim_core.specs.Cycles.{CycleDone};
ghost use Rattle.cosim_core.specs.Sessions.{lowered_of};

use crate::gathering::gather;
use crate::handing::hand_all;
use crate::parts::{State, Wiring};
use crate::settling::settle;
use crate::transfers::{enter, leave};
use esi_base::NoMemory;

/// All nets settle, all transfers move, each channel whose flag is true hands its oldest value, if it has one, and the cycle is over.
pub(crate) fn advance(wiring: &Wiring, state: &mut State, hands: &[bool]) -> Result<(), NoMemory>
    requires keeps { Keeps (lowered_of wiring.now state.old.sim.plan) state.old.hub (registers_after state.old.sim.plan state.old.sim.last) }
    requires kept { IsKept (lowered_of wiring.now state.old.sim.plan) wiring.now.blanks wiring.now.registers }
    requires hands { length hands.now ≡ length wiring.now.clients }
    requires cycles { state.old.hub.journal.cycles < 2 ^ 64 - 1 }
    ensures plan { state.new.sim.plan ≡ state.old.sim.plan }
    ensures done { OnOk result (CycleDone (lowered_of wiring.now state.old.sim.plan) state.old.hub state.new.hub (registers_after state.old.sim.plan state.old.sim.last) state.new.sim.last hands.now state.new.handed) }
{
    gather(
        &mut state.inputs,
        &state.hub,
        wiring.blanks.as_slice(),
        wiring.clients.len(),
    )?;
    settle(&mut state.sim, state.inputs.as_slice());
    leave(&mut state.hub, &state.sim, wiring.servers.as_slice());
    enter(&mut state.hub, &state.sim, wiring.clients.as_slice());
    hand_all(&mut state.hub, &mut state.handed, hands)?;
    state.hub.next_cycle();
    Ok(())
}
