//! Cases of connections: each line of the input is a case, and is printed after it with its answer. A
//! line that begins with `#` is a title, and is printed as it is.
//!
//! `server WORDS` and `client WORDS` make that end, take the octets with which it begins, feed it the
//! first SETTINGS of its peer (`new` as the first word leaves both out), and do what the words say, one
//! after another. The answer is what happened, and what the end has put. Each case is run twice, the
//! second time with each octet fed alone, and says so where that gave another answer.
//!
//! `random ROLE SEED CASES STEPS` runs so many cases of random words at the one end, and gives how many of them ended with
//! an error of the connection, and a digest of all answers, in which the output stands whole. `words ROLE SEED CASE STEPS`
//! gives the words of one of them.
//!
//! `talk SEED CONVERSATIONS CALLS` lets a client and a server talk, so often.
#![tactic(auto)]

mod blocks;
mod body;
mod digest;
mod lists;
mod random;
mod session;
mod talk;
mod text;

use crate::digest::Digest;
use crate::text::SHOWN;
use case_words::Numbers;
use h2_streams::Conn;
use std::alloc::{AllocError, Global};
use std::io;
use std::process::ExitCode;

fn main(rt: HostRuntime) -> io::Result<ExitCode> {
    let alloc = rt.alloc();
    for line in rt.lines(alloc) {
        let line = line?;
        println!(rt; "{line}")?;
        if line.as_str().starts_with("#") || line.is_empty() {
            continue;
        }
        let Some(answer) = answer_of(alloc, line.as_str())? else {
            println!(rt; "    no case")?;
            return Ok(ExitCode::from(1));
        };
        println!(rt; "    {answer}")?;
    }
    Ok(ExitCode::from(0))
}

/// The answer of a case; None where the line is none.
fn answer_of(alloc: Global, line: &str) -> Result<Option<String>, AllocError> {
    let Some((name, words)) = line.split_once(" ") else {
        return Ok(None);
    };
    match name {
        "talk" => talk_of(alloc, words),
        "random" => random_of(alloc, words),
        "words" => words_of(alloc, words),
        _ => twice(alloc, name, words, SHOWN),
    }
}

/// The answer of a case that is run twice, the second time octet by octet.
fn twice(
    alloc: Global,
    name: &str,
    words: &str,
    shown: usize,
) -> Result<Option<String>, AllocError> {
    let Some(mut whole) = run(alloc, name, words, false, shown)? else {
        return Ok(None);
    };
    let Some(single) = run(alloc, name, words, true, shown)? else {
        return Ok(None);
    };
    if single.as_str() != whole.as_str() {
        let note = format!(in alloc; " BUT OCTET BY OCTET {single}")?;
        whole.push_str(note.as_str())?;
    }
    Ok(Some(whole))
}

/// Runs random cases; None where the words are not a role and three numbers.
fn random_of(alloc: Global, words: &str) -> Result<Option<String>, AllocError> {
    let Some((role, seed, cases, steps)) = role_and_numbers(words) else {
        return Ok(None);
    };
    let mut digest = Digest::new();
    let mut broken: u32 = 0;
    for at in 0..cases {
        let case = random::case_words(alloc, role == "server", numbers_of(seed, at), steps)?;
        let Some(answer) = twice(alloc, role, case.as_str(), usize::MAX)? else {
            return Ok(None);
        };
        if answer.as_str().contains("broken ") {
            broken = broken.wrapping_add(1);
        }
        digest.add(answer.as_str().as_bytes());
    }
    let value = digest.value();
    Ok(Some(format!(in alloc; "{cases} cases, {broken} of them broken, digest {value:016x}")?))
}

/// The words of a random case; None where the words are not a role and three numbers.
fn words_of(alloc: Global, words: &str) -> Result<Option<String>, AllocError> {
    let Some((role, seed, at, steps)) = role_and_numbers(words) else {
        return Ok(None);
    };
    let case = random::case_words(alloc, role == "server", numbers_of(seed, at), steps)?;
    Ok(Some(case))
}

/// The numbers of a random case.
fn numbers_of(seed: u32, at: u32) -> Numbers {
    Numbers::new(seed.wrapping_mul(65_537).wrapping_add(at))
}

fn role_and_numbers(words: &str) -> Option<(&str, u32, u32, u32)> {
    let mut parts = words.split_whitespace();
    let role = parts.next()?;
    let first = number(parts.next())?;
    let second = number(parts.next())?;
    let third = number(parts.next())?;
    Some((role, first, second, third))
}

/// Holds conversations; None where the words are not three numbers.
fn talk_of(alloc: Global, words: &str) -> Result<Option<String>, AllocError> {
    let mut numbers = words.split_whitespace();
    let seed = number(numbers.next());
    let conversations = number(numbers.next());
    let calls = number(numbers.next());
    match (seed, conversations, calls) {
        (Some(seed), Some(conversations), Some(calls)) => {
            Ok(Some(talk::answer(alloc, seed, conversations, calls)?))
        }
        _ => Ok(None),
    }
}

fn number(word: Option<&str>) -> Option<u32> {
    word?.parse::<u32>().ok()
}

/// Runs a case, octet by octet or in whole pieces.
fn run(
    alloc: Global,
    name: &str,
    words: &str,
    single: bool,
    shown: usize,
) -> Result<Option<String>, AllocError> {
    let conn = match name {
        "server" => Conn::server(alloc),
        "client" => Conn::client(alloc),
        _ => return Ok(None),
    };
    let Ok(conn) = conn else {
        return Err(AllocError);
    };
    session::answer(alloc, conn, name == "server", words, single, shown)
}
