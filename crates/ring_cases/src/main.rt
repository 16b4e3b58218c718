//! Cases of the rings of a hub and of a pipe: each line of the input is a call, and is printed with its
//! answer. A line that begins with `#` is the title of a case, which begins with a new hub of two
//! channels each way and with a new pipe of one stage.
#![tactic(auto)]

mod hub_case;
mod numbers;
mod pipe_case;

use crate::hub_case::{HubCall, HubCase};
use crate::numbers::Numbers;
use crate::pipe_case::{PipeCall, PipeCase};
use esi_base::NoMemory;
use std::alloc::{AllocError, Global};
use std::io;
use std::process::ExitCode;

/// The hub and the pipe of a case.
#[derive(Drop)]
struct Case {
    hub: HubCase,
    pipe: PipeCase,
}

impl Case {
    /// A new hub, and a new pipe of one stage.
    fn new(alloc: Global) -> Result<Case, NoMemory> {
        Ok(Case {
            hub: HubCase::new(alloc)?,
            pipe: PipeCase::new(alloc, 1)?,
        })
    }

    /// Makes the call that a line names, and gives its answer as text.
    fn answer(&mut self, alloc: Global, line: &str) -> Result<String, AllocError> {
        let mut words = line.split_whitespace();
        let name = words.next().unwrap_or("");
        let numbers = Numbers::read(&mut words);
        if let Some(call) = HubCall::read(name, numbers) {
            return self.hub.answer(alloc, call);
        }
        match PipeCall::read(name, numbers) {
            Some(call) => self.pipe.answer(alloc, call),
            None => String::from_str(alloc, "no such call"),
        }
    }
}

fn main(rt: HostRuntime) -> io::Result<ExitCode> {
    let alloc = rt.alloc();
    let Ok(mut case) = Case::new(alloc) else {
        return Ok(ExitCode::from(1));
    };
    for line in rt.lines(alloc) {
        let line = line?;
        if line.as_str().starts_with("#") {
            let Ok(first) = Case::new(alloc) else {
                return Ok(ExitCode::from(1));
            };
            case = first;
            println!(rt; "{line}")?;
        } else {
            let answer = case.answer(alloc, line.as_str())?;
            println!(rt; "{line}: {answer}")?;
        }
    }
    Ok(ExitCode::from(0))
}
