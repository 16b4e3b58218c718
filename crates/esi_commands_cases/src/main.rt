//! Runs commands over files and sinks in memory, and prints what each printed, reported and answered. The
//! cases stand on standard input.
#![tactic(auto)]

mod case;
mod narrow_sink;
mod printing;
mod running;

use crate::case::Case;
use crate::running::run_case;
use std::io;

/// Runs each case, which ends with a blank line or the input's end.
fn main(rt: HostRuntime) -> io::Result<()> {
    let alloc = rt.alloc();
    let mut case = Case::new(alloc);
    for line in rt.lines(alloc) {
        let line = line?;
        if line.as_str().is_empty() {
            run_case(&rt, &case)?;
            case = Case::new(alloc);
        } else if !case.read_line(alloc, line.as_str())? {
            println!(rt; "no such line: {line}")?;
        }
    }
    run_case(&rt, &case)
}
