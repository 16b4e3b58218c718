//! Cases of the ledger of windows: each line of the input is a call, and is printed with its answer. A
//! line that begins with `#` is the title of a case, and begins with a new ledger.
#![tactic(auto)]

mod call;
mod history;
mod random;

use crate::call::Call;
use h2_flow::Ledger;
use std::io;
use std::process::ExitCode;

fn main(rt: HostRuntime) -> io::Result<ExitCode> {
    let alloc = rt.alloc();
    let Ok(mut ledger) = Ledger::new(alloc) else {
        return Ok(ExitCode::from(1));
    };
    for line in rt.lines(alloc) {
        let line = line?;
        if line.as_str().starts_with("#") {
            let Ok(first) = Ledger::new(alloc) else {
                return Ok(ExitCode::from(1));
            };
            ledger = first;
            println!(rt; "{line}")?;
        } else {
            let Some(call) = Call::read(line.as_str()) else {
                return Ok(ExitCode::from(1));
            };
            let answer = call.answer(alloc, &mut ledger)?;
            println!(rt; "{line}: {answer}")?;
        }
    }
    Ok(ExitCode::from(0))
}
