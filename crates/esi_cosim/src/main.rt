//! `esi_cosim`: drives the typed, latency-insensitive channels of a design from host software.
#![tactic(auto)]

use command_runs::{Ending, conclude};
use esi_base::List;
use esi_commands::program::{command_words, exit_code};
use esi_commands::run;
use esi_links::SureLinks;
use std::process::ExitCode;
use std::{env, io};
use system_adapters::{DiskFiles, StdSink};

/// Makes the real objects, runs the command that the arguments ask for, and ends with its status.
fn main(rt: HostRuntime) -> io::Result<ExitCode> {
    let alloc = rt.alloc();
    let mut files = DiskFiles::new(rt.clone()?);
    let mut out = StdSink::new(rt.stdout());
    let mut err = StdSink::new(rt.stderr());
    let mut links = SureLinks::new(alloc, List::new(alloc));
    let outcome = match command_words(alloc, env::args(&rt)) {
        Ok(words) => run(
            alloc,
            words.as_slice(),
            &mut files,
            &mut out,
            &mut err,
            &mut links,
        ),
        Err(_) => conclude(alloc, Ending::NoMemory, None, &[], &mut err),
    };
    Ok(exit_code(&outcome))
}
