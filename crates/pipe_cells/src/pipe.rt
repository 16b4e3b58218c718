//! The simulation of a pipe: values wait, enter the row of cells through a ring, and leave it through
//! another.
ghost use Rattle.std.specs.Prelude.{◌≡◌, ◌+◌, ◌-◌, ◌^◌, ◌<◌, replicate, length, [], IfOk};
ghost use Rattle.cycle_rules.specs.Simulation.{after_cycle, after_cycles, after_action, after_actions, cycles_in, cycles_of_action};
ghost use Rattle.cycle_rules.specs.Lists.{first};
ghost use Rattle.cycle_rules.specs.PipeSimulation.{simulation_of, at_start};
ghost use Rattle.cycle_rules.specs.Puts.{TakesInOrder};
ghost use Rattle.cycle_rules.specs.Order.{HandsInOrder};
ghost use Rattle.pipe_cells.specs.Cells.{pipe_circuit};
ghost use Rattle.pipe_cells.specs.PipeRun.{pipe_run};
ghost use Rattle.pipe_cells.specs.PipeRings.{TakesAll, Transfers};

use crate::cell::Cell;
use crate::ports::Ports;
use crate::row::{is_ready_at, pass, word_from};
use cycle_rules::{Action, Transfer};
use esi_base::{NoMemory, Word};
use std::alloc::Global;
use std::collections::VecDeque;
use std::marker::Model;

/// The number of the one channel on each side.
const CHANNEL: u32 = 0;

/// A pipe that is simulated. Contracts see what waits, what the rings and the cells hold, the cycles
/// that ended, and the values taken and handed, as the simulation of one channel each way. After it ran
/// out of memory it is not used again.
#[derive(Drop)]
pub struct Pipe {
    waiting: VecDeque<Word>,
    ports: Ports,
    cells: Vec<Cell>,
    /// Whether values are handed out.
    is_on: bool,
}

impl Model for Pipe {
    ghost use Rattle.std.specs.Prelude.{List, Bool, true};
    ghost use Rattle.cycle_rules.specs.Lists.{first};
    ghost use Rattle.cycle_rules.specs.PipeSimulation.{PipeSimulation};

    ghost Value = { PipeSimulation (List (List (List Bool))) };

    ghost view = { λ p. record { waiting = p.waiting.items; entering = p.ports.entering; state = p.cells.items; leaving = p.ports.leaving; switch = p.is_on; cycles = p.ports.cycles; taken = p.ports.taken; handed = p.ports.handed } };
}

impl Pipe {
    /// A pipe of so many empty cells, with nothing in its rings, before the first cycle.
    pub fn new(alloc: Global, stages: u32) -> Result<Pipe, NoMemory>
        ensures { IfOk result (λ pipe. pipe ≡ at_start (replicate stages [])) }
    {
        Ok(Pipe {
            waiting: VecDeque::new(alloc),
            ports: Ports::new(alloc)?,
            cells: empty_cells(alloc, stages)?,
            is_on: true,
        })
    }

    /// Runs the actions in order.
    pub fn run(&mut self, actions: &[Action]) -> Result<(), NoMemory>
        requires { self.old.cycles + cycles_in actions.now < 2 ^ 64 }
        ensures { IfOk result (λ _. simulation_of self.new ≡ after_actions pipe_circuit actions.now (simulation_of self.old)) }
    {
        for action in actions {
            self.act(action)?;
        }
        Ok(())
    }

    /// How many cycles have ended.
    pub fn cycle_count(&self) -> u64
        ensures { result ≡ self.now.cycles }
    {
        self.ports.cycle_count()
    }

    /// How many values were taken.
    pub fn taken_count(&self) -> usize
        ensures { result ≡ length self.now.taken }
    {
        self.ports.taken_count()
    }

    /// The values that were handed, in order.
    pub fn handed(&self) -> &[Transfer]
        ensures { result.now ≡ self.now.handed }
    {
        self.ports.handed()
    }

    fn act(&mut self, action: &Action) -> Result<(), NoMemory>
        requires { self.old.cycles + cycles_of_action action.now < 2 ^ 64 }
        ensures after_action { IfOk result (λ _. simulation_of self.new ≡ after_action pipe_circuit action.now (simulation_of self.old)) }
        ensures cycles { IfOk result (λ _. self.new.cycles ≡ self.old.cycles + cycles_of_action action.now) }
    {
        match action {
            Action::Put { channel, word } => self.put(*channel, *word),
            Action::Ready { channel, on } => {
                self.set_switch(*channel, *on);
                Ok(())
            }
            Action::Run { cycles } => self.cycles(*cycles),
        }
    }

    fn put(&mut self, channel: u32, word: Word) -> Result<(), NoMemory>
        ensures cycles { IfOk result (λ _. self.new.cycles ≡ self.old.cycles) }
        ensures put { IfOk result (λ _. simulation_of self.new ≡ after_action pipe_circuit (Action.Put channel word) (simulation_of self.old)) }
    {
        if channel == CHANNEL {
            self.waiting.push_back(word)?;
        }
        Ok(())
    }

    fn set_switch(&mut self, channel: u32, on: bool)
        ensures cycles { self.new.cycles ≡ self.old.cycles }
        ensures set { simulation_of self.new ≡ after_action pipe_circuit (Action.Ready channel on) (simulation_of self.old) }
    {
        if channel == CHANNEL {
            self.is_on = on;
        }
    }

    fn cycles(&mut self, count: u32) -> Result<(), NoMemory>
        requires { self.old.cycles + count < 2 ^ 64 }
        ensures cycles { IfOk result (λ _. self.new.cycles ≡ self.old.cycles + count) }
        ensures after_cycle { IfOk result (λ _. simulation_of self.new ≡ after_cycles pipe_circuit count (simulation_of self.old)) }
    {
        for turn in 0..count {
            self.cycle()?;
        }
        Ok(())
    }

    /// One cycle: takes, transfers, and a hand.
    fn cycle(&mut self) -> Result<(), NoMemory>
        requires { self.old.cycles < 2 ^ 64 - 1 }
        ensures cycles { IfOk result (λ _. self.new.cycles ≡ self.old.cycles + 1) }
        ensures after_cycle { IfOk result (λ _. simulation_of self.new ≡ after_cycle pipe_circuit (simulation_of self.old)) }
    {
        take_values(&mut self.waiting, &mut self.ports)?;
        transfer(&mut self.ports, &mut self.cells);
        self.ports.hand(self.is_on)?;
        self.ports.end_cycle();
        Ok(())
    }
}

/// Simulates a pipe of so many stages, from empty, by these actions, which run fewer than 2^64 cycles in
/// all. What it hands out is a prefix of what it took, and what it took is a prefix of what was put on
/// its channel, 0. It fails only when it runs out of memory.
pub fn simulate(alloc: Global, stages: u32, actions: &[Action]) -> Result<Pipe, NoMemory>
    requires { cycles_in actions.now < 2 ^ 64 }
    ensures run { IfOk result (λ pipe. simulation_of pipe ≡ pipe_run stages actions.now) }
    ensures in_order { IfOk result (λ pipe. HandsInOrder (simulation_of pipe)) }
    ensures taken_in_order { IfOk result (λ pipe. TakesInOrder 0 actions.now (simulation_of pipe)) }
{
    let mut pipe = Pipe::new(alloc, stages)?;
    pipe.run(actions)?;
    Ok(pipe)
}

/// As many empty cells as are asked for.
fn empty_cells(alloc: Global, count: u32) -> Result<Vec<Cell>, NoMemory>
    ensures { IfOk result (λ cells. cells.items ≡ replicate count []) }
{
    let mut cells = Vec::with_capacity(alloc, count as usize)?;
    for made in 0..count {
        cells.push(Cell::empty())?;
    }
    Ok(cells)
}

/// Takes the waiting values, first come first, while the session and the ring have room.
fn take_values(waiting: &mut VecDeque<Word>, ports: &mut Ports) -> Result<(), NoMemory>
    ensures { IfOk result (λ _. TakesAll waiting.old.items ports.old waiting.new.items ports.new) }
{
    while let Some(word) = first_waiting(waiting) {
        if !ports.put(word)? {
            break;
        }
        let _taken = waiting.pop_front();
    }
    Ok(())
}

/// The value that has waited longest.
fn first_waiting(waiting: &VecDeque<Word>) -> Option<Word>
    ensures { result ≡ first waiting.now.items }
{
    waiting.front().copied()
}

/// All transfers of a cycle, which depend on the rings and the cells as they were before it.
fn transfer(ports: &mut Ports, cells: &mut [Cell])
    ensures { Transfers ports.old cells.old ports.new cells.new }
{
    let room = ports.has_room();
    let ready = is_ready_at(cells, 0, room);
    let word = word_from(cells, ports.front());
    pass(cells, ports.front(), room);
    ports.leave(ready);
    ports.enter(word);
}
