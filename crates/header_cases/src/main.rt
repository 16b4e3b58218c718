//! Cases of the Huffman code and of header blocks: each line of the input is a case, and is printed with its answer
//! behind an arrow. A line that begins with `#` is a title, and is printed as it is.
//!
//! README.md tells each kind of case. The answers of the table are those that the standards' examples
//! and rules worked by hand give, and never taken from this program.
#![tactic(auto)]

mod header_blocks;
mod header_lists;
mod huffman;
mod random;
mod random_blocks;
mod table_model;

use esi_base::NoMemory;
use std::alloc::Global;
use std::io;
use std::process::ExitCode;

fn main(rt: HostRuntime) -> io::Result<ExitCode> {
    let alloc = rt.alloc();
    for line in rt.lines(alloc) {
        let line = line?;
        if line.as_str().starts_with("#") || line.is_empty() {
            println!(rt; "{line}")?;
        } else {
            match answer_of(alloc, line.as_str()) {
                Ok(Some(answer)) => println!(rt; "{line} -> {answer}")?,
                Ok(None) => {
                    println!(rt; "no case: {line}")?;
                    return Ok(ExitCode::from(1));
                }
                Err(NoMemory) => {
                    println!(rt; "out of memory: {line}")?;
                    return Ok(ExitCode::from(2));
                }
            }
        }
    }
    Ok(ExitCode::from(0))
}

/// The answer of a case; None where the line is none.
fn answer_of(alloc: Global, line: &str) -> Result<Option<String>, NoMemory> {
    let (name, rest) = line.split_once(" ").unwrap_or((line, ""));
    match name {
        "huffman" => huffman::written(alloc, rest),
        "huffman-code" => huffman::read(alloc, rest),
        "huffman-words" => huffman::words(alloc),
        "header-block" => header_blocks::read(alloc, rest),
        "write-headers" => header_lists::written(alloc, rest),
        "random" => random::compared(alloc, rest),
        _ => Ok(None),
    }
}
