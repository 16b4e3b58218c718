//! Cases of printed Verilog: each line of the input is a type, and is answered by the text of a pipe of one stage of that type.
#![tactic(auto)]

mod pipe;

use crate::pipe::pipe_text;
use esi_base::NoMemory;
use std::io;
use std::process::ExitCode;

fn main(rt: HostRuntime) -> io::Result<ExitCode> {
    let alloc = rt.alloc();
    for line in rt.lines(alloc) {
        let line = line?;
        match pipe_text(alloc, line.as_str().as_bytes()) {
            Ok(Some(text)) => match std::str::from_utf8(text.as_slice()) {
                Ok(text) => print!(rt; "{text}")?,
                Err(_) => println!(rt; "no text")?,
            },
            Ok(None) => println!(rt; "no type")?,
            Err(NoMemory) => {
                println!(rt; "out of memory")?;
                return Ok(ExitCode::from(1));
            }
        }
    }
    Ok(ExitCode::from(0))
}
