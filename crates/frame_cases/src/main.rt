//! Cases of frames: each line of the input is a case, and is printed after it with its answer. A line
//! that begins with `#` is a title, and is printed as it is.
//!
//! `server PARTS` and `client PARTS` read octets for that end of a connection, whole and at many
//! cuttings, and print the frames, and how it goes on after them. `write FRAME` prints the octets of a
//! frame, and reads them at each cutting. `random SEED SEQUENCES` writes so many random sequences of
//! frames, and reads each at a random cutting.
#![tactic(auto)]

mod cutting;
mod random;
mod text;
mod written;

use case_words::octets_of;
use h2_frames::Role;
use std::alloc::{AllocError, Global};
use std::io;
use std::process::ExitCode;

fn main(rt: HostRuntime) -> io::Result<ExitCode> {
    let alloc = rt.alloc();
    for line in rt.lines(alloc) {
        let line = line?;
        if line.as_str().starts_with("#") || line.is_empty() {
            println!(rt; "{line}")?;
        } else {
            let Some(answer) = answer_of(alloc, line.as_str())? else {
                println!(rt; "no case: {line}")?;
                return Ok(ExitCode::from(1));
            };
            println!(rt; "{line}")?;
            println!(rt; "    {answer}")?;
        }
    }
    Ok(ExitCode::from(0))
}

/// The answer of a case; None where the line is none.
fn answer_of(alloc: Global, line: &str) -> Result<Option<String>, AllocError> {
    let Some((name, rest)) = line.split_once(" ") else {
        return Ok(None);
    };
    match name {
        "server" => read_case(alloc, Role::Server, rest),
        "client" => read_case(alloc, Role::Client, rest),
        "write" => written::answer(alloc, rest),
        "random" => random::answer(alloc, rest),
        _ => Ok(None),
    }
}

/// The frames of octets, and how it goes on after them.
fn read_case(alloc: Global, role: Role, text: &str) -> Result<Option<String>, AllocError> {
    match octets_of(alloc, text)? {
        Some(octets) => Ok(Some(cutting::answer(alloc, role, octets.as_slice())?)),
        None => Ok(None),
    }
}
