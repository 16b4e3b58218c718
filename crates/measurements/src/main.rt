//! Does one piece of work many times, so that a script can time it (the folder `bench`).
#![tactic(auto)]

mod calls;
mod frames;
mod headers;
mod huffman;
mod messages;
mod streams;
mod types;
mod work;

use crate::work::Work;
use esi_base::LONGEST_TEXT;
use esi_links::read_whole;
use std::process::ExitCode;
use std::{env, io};
use system_adapters::DiskFiles;

/// `measurements WORK ROUNDS FILE` does the work so often on the octets that the file holds, and prints
/// what a round made: octets, or what the work counts. Other words, a file that cannot be read, octets
/// that are not what the work is for, and out of memory end with status 1.
fn main(rt: HostRuntime) -> io::Result<ExitCode> {
    let mut words = Vec::new(rt.alloc());
    for word in env::args(&rt)?.skip(1) {
        words.push(word)?;
    }
    match made_by_words(&rt, words.as_slice())? {
        Some(made) => {
            println!(rt; "made {made}")?;
            Ok(ExitCode::from(0))
        }
        None => Ok(ExitCode::from(1)),
    }
}

/// What a round made, None where the words or the file are not what they should be.
fn made_by_words(rt: &HostRuntime, words: &[String]) -> io::Result<Option<usize>> {
    let alloc = rt.alloc();
    let [work, rounds, name] = words else {
        return Ok(None);
    };
    let Some(work) = Work::named(work.as_str()) else {
        return Ok(None);
    };
    let Ok(rounds) = rounds.as_str().parse::<u32>() else {
        return Ok(None);
    };
    let mut files = DiskFiles::new(rt.clone()?);
    let Ok(file) = read_whole(alloc, &mut files, name.as_str(), LONGEST_TEXT) else {
        return Ok(None);
    };
    if file.len() > LONGEST_TEXT {
        return Ok(None);
    }
    Ok(work.do_rounds(alloc, rounds, file.as_slice()))
}
