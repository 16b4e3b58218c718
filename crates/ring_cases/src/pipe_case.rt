//! Calls of a pipe.

use crate::numbers::{Numbers, number, octet};
use cycle_rules::{Action, Transfer};
use esi_base::NoMemory;
use pipe_cells::Pipe;
use std::alloc::{AllocError, Global};

/// The number of cycles from which on no more are run.
const LAST_CYCLE: u64 = 1_000_000;

/// A call of a pipe.
#[derive(Clone, Copy)]
pub enum PipeCall {
    /// `pipe STAGES`: a new pipe
    Pipe(u32),
    /// `wait CHANNEL OCTET`: a value is put, and waits
    Wait(u32, u32),
    /// `wait_all FROM TO`: the octets from one up to another are put on channel 0
    WaitAll(u32, u32),
    /// `switch CHANNEL ON`: the switch of a to-client channel is set, on by 1 and off by 0
    Switch(u32, u32),
    /// `run CYCLES`
    Run(u32),
    /// `counts`: cycles, values taken and values handed
    Counts,
    /// `hands`: each value handed, as its cycle, its channel and its octet
    Hands,
}

impl PipeCall {
    /// The call of this name; None where there is none.
    pub fn read(name: &str, numbers: Numbers) -> Option<PipeCall> {
        match name {
            "pipe" => Some(PipeCall::Pipe(numbers.first)),
            "wait" => Some(PipeCall::Wait(numbers.first, numbers.second)),
            "wait_all" => Some(PipeCall::WaitAll(numbers.first, numbers.second)),
            "switch" => Some(PipeCall::Switch(numbers.first, numbers.second)),
            "run" => Some(PipeCall::Run(numbers.first)),
            "counts" => Some(PipeCall::Counts),
            "hands" => Some(PipeCall::Hands),
            _ => None,
        }
    }
}

/// A pipe that calls are made of.
#[derive(Drop)]
pub struct PipeCase {
    pipe: Pipe,
}

impl PipeCase {
    /// A new pipe of so many stages.
    pub fn new(alloc: Global, stages: u32) -> Result<PipeCase, NoMemory> {
        Ok(PipeCase {
            pipe: Pipe::new(alloc, stages)?,
        })
    }

    /// Makes a call, and gives its answer as text.
    pub fn answer(&mut self, alloc: Global, call: PipeCall) -> Result<String, AllocError> {
        match call {
            PipeCall::Counts => self.counts(alloc),
            PipeCall::Hands => self.hands(alloc),
            _ => match self.act(alloc, call) {
                Ok(()) => String::from_str(alloc, "ok"),
                Err(NoMemory) => String::from_str(alloc, "out of memory"),
            },
        }
    }

    /// Makes a call that changes the pipe.
    fn act(&mut self, alloc: Global, call: PipeCall) -> Result<(), NoMemory> {
        match call {
            PipeCall::Pipe(stages) => {
                self.pipe = Pipe::new(alloc, stages)?;
                Ok(())
            }
            PipeCall::Wait(channel, number) => self.wait(channel, number),
            PipeCall::WaitAll(from, to) => self.wait_all(from, to),
            PipeCall::Switch(channel, on) => self.switch(channel, on == 1),
            PipeCall::Run(cycles) => self.run(cycles),
            PipeCall::Counts | PipeCall::Hands => Ok(()),
        }
    }

    fn wait(&mut self, channel: u32, number: u32) -> Result<(), NoMemory> {
        if self.pipe.cycle_count() >= LAST_CYCLE {
            return Ok(());
        }
        self.pipe.run(&[Action::Put {
            channel,
            word: octet(number),
        }])
    }

    fn wait_all(&mut self, from: u32, to: u32) -> Result<(), NoMemory> {
        for number in from..to {
            self.wait(0, number)?;
        }
        Ok(())
    }

    fn switch(&mut self, channel: u32, on: bool) -> Result<(), NoMemory> {
        if self.pipe.cycle_count() >= LAST_CYCLE {
            return Ok(());
        }
        self.pipe.run(&[Action::Ready { channel, on }])
    }

    fn run(&mut self, cycles: u32) -> Result<(), NoMemory> {
        if self.pipe.cycle_count() >= LAST_CYCLE {
            return Ok(());
        }
        self.pipe.run(&[Action::Run { cycles }])
    }

    fn counts(&self, alloc: Global) -> Result<String, AllocError> {
        let cycles = self.pipe.cycle_count();
        let taken = self.pipe.taken_count();
        let handed = self.pipe.handed().len();
        format!(in alloc; "cycles {cycles} taken {taken} handed {handed}")
    }

    fn hands(&self, alloc: Global) -> Result<String, AllocError> {
        let mut text = String::new(alloc);
        for transfer in self.pipe.handed() {
            push_transfer(alloc, &mut text, transfer)?;
        }
        Ok(text)
    }
}

/// Adds a value that was handed, after a space where other text stands before it.
fn push_transfer(alloc: Global, text: &mut String, transfer: &Transfer) -> Result<(), AllocError> {
    if !text.is_empty() {
        text.push_str(" ")?;
    }
    let cycle = transfer.cycle;
    let channel = transfer.channel;
    let octet = number(transfer.word);
    let part = format!(in alloc; "{cycle}/{channel}/{octet}")?;
    text.push_str(part.as_str())?;
    Ok(())
}
