//! Cases of calls: each line of the input is a case, and is printed with its answer behind an arrow. A
//! line that begins with `#` is a title, and one that begins with `design` says which endpoints there are
//! from here on; both are printed as they are.
//!
//! The answers of the table are those of the model in `bench/calls/model.py`, which was written from the
//! rules of docs/calls.md, and of examples worked by hand; never of this program.
#![tactic(auto)]

mod calls;
mod directories;
mod replies;

use esi_base::NoMemory;
use esi_types::Directory;
use std::alloc::Global;
use std::io;
use std::process::ExitCode;

fn main(rt: HostRuntime) -> io::Result<ExitCode> {
    let alloc = rt.alloc();
    let Ok(Some(mut directory)) = directories::read(alloc, "- -") else {
        return Ok(ExitCode::from(2));
    };
    for line in rt.lines(alloc) {
        let line = line?;
        if line.as_str().starts_with("#") || line.is_empty() {
            println!(rt; "{line}")?;
        } else if let Some(text) = line.as_str().strip_prefix("design ") {
            match directories::read(alloc, text) {
                Ok(Some(read)) => directory = read,
                _ => return Ok(ExitCode::from(1)),
            }
            println!(rt; "{line}")?;
        } else {
            match answer_of(alloc, line.as_str(), &directory) {
                Ok(Some(answer)) => println!(rt; "{line} -> {answer}")?,
                Ok(None) => {
                    println!(rt; "no case: {line}")?;
                    return Ok(ExitCode::from(1));
                }
                Err(NoMemory) => {
                    println!(rt; "out of memory: {line}")?;
                    return Ok(ExitCode::from(2));
                }
            }
        }
    }
    Ok(ExitCode::from(0))
}

/// The answer of a case; None where the line is none.
fn answer_of(alloc: Global, line: &str, directory: &Directory) -> Result<Option<String>, NoMemory> {
    let (name, rest) = line.split_once(" ").unwrap_or((line, ""));
    match name {
        "call" => calls::answer(alloc, rest, directory),
        "list" => replies::list(alloc, directory),
        "reply" => replies::headers(alloc, rest),
        _ => Ok(None),
    }
}
