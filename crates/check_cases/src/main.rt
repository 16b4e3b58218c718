//! Cases of the checks of designs: each line of the input is a design, in which `\n` is a line feed, and is
//! printed with its answer after it. A line that begins with `#` is a title, and is printed as it is.
//! README.md lists the cases.
#![tactic(auto)]

use bundle_check::check;
use esi_base::{NoMemory, Octets, Stop};
use esi_text::read_design;
use std::alloc::Global;
use std::io;
use std::process::ExitCode;

fn main(rt: HostRuntime) -> io::Result<ExitCode> {
    let alloc = rt.alloc();
    for line in rt.lines(alloc) {
        let line = line?;
        println!(rt; "{line}")?;
        if line.as_str().starts_with("#") || line.is_empty() {
            continue;
        }
        match answer_of(alloc, line.as_str()) {
            Ok(answer) => println!(rt; "    {answer}")?,
            Err(NoMemory) => {
                println!(rt; "out of memory")?;
                return Ok(ExitCode::from(1));
            }
        }
    }
    Ok(ExitCode::from(0))
}

/// What becomes of a design: it is accepted, or refused by its text or by its checks.
fn answer_of(alloc: Global, line: &str) -> Result<String, NoMemory> {
    let text = text_of(alloc, line)?;
    let design = match read_design(alloc, text.as_slice()) {
        Ok(design) => design,
        Err(stop) => return refusal_text(alloc, stop),
    };
    match check(alloc, design) {
        Ok(_checked) => Ok(String::from_str(alloc, "accepted")?),
        Err(stop) => refusal_text(alloc, stop),
    }
}

/// A refusal as its number, line and column.
fn refusal_text(alloc: Global, stop: Stop) -> Result<String, NoMemory> {
    match stop {
        Stop::Refused(refusal) => {
            let number = refusal.number;
            let line = refusal.place.line;
            let column = refusal.place.column;
            Ok(format!(in alloc; "refused {number} {line}:{column}")?)
        }
        Stop::NoMemory => Err(NoMemory),
    }
}

/// The text of a case, in which `\n` stands for a line feed.
fn text_of(alloc: Global, line: &str) -> Result<Octets, NoMemory> {
    let mut text = Octets::new(alloc);
    let mut is_escape = false;
    for octet in line.bytes() {
        if is_escape {
            is_escape = false;
            text.add(if octet == b'n' { b'\n' } else { octet })?;
        } else if octet == b'\\' {
            is_escape = true;
        } else {
            text.add(octet)?;
        }
    }
    Ok(text)
}
