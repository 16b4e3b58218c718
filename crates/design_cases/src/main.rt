//! Cases of the design side: each line of the input is a case, and is printed with its answer after it.
//! A line that begins with `#` is a title, and is printed as it is. The texts of cases are written as
//! `escapes` says. README.md lists the cases.
#![tactic(auto)]

mod cursor_reading;
mod designs;
mod directories;
mod escapes;
mod expressions;
mod leaves;
mod lines;
mod random_designs;
mod random_text;
mod random_values;
mod statements;
mod stimuli;
mod tokens;
mod types;
mod value_text;
mod values;

use esi_base::NoMemory;
use std::alloc::Global;
use std::io;
use std::process::ExitCode;

fn main(rt: HostRuntime) -> io::Result<ExitCode> {
    let alloc = rt.alloc();
    for line in rt.lines(alloc) {
        let line = line?;
        if line.as_str().starts_with("#") || line.is_empty() {
            println!(rt; "{line}")?;
            continue;
        }
        println!(rt; "{line}")?;
        match answer_of(alloc, line.as_str()) {
            Ok(Some(answer)) => println!(rt; "    {answer}")?,
            Ok(None) => {
                println!(rt; "no case")?;
                return Ok(ExitCode::from(1));
            }
            Err(NoMemory) => {
                println!(rt; "out of memory")?;
                return Ok(ExitCode::from(1));
            }
        }
    }
    Ok(ExitCode::from(0))
}

/// The answer of a case; None where the line is none.
fn answer_of(alloc: Global, line: &str) -> Result<Option<String>, NoMemory> {
    let (name, rest) = line.split_once(" ").unwrap_or((line, ""));
    match name {
        "tokens" => tokens::answer(alloc, rest),
        "spans" => tokens::spans(alloc, rest),
        "read" => cursor_reading::answer(alloc, rest),
        "leaves" => leaves::answer(alloc, rest),
        _ => answer_on_types(alloc, name, rest),
    }
}

/// The answer of a case on types, or of one of those below.
fn answer_on_types(alloc: Global, name: &str, rest: &str) -> Result<Option<String>, NoMemory> {
    match name {
        "type" => types::answer(alloc, rest),
        "type-at" => types::answer_at(alloc, rest),
        "width" => types::width(alloc, rest),
        "same" => types::same(alloc, rest),
        "find" => directories::answer(alloc, rest),
        _ => answer_on_values(alloc, name, rest),
    }
}

/// The answer of a case on values, or of one of those below.
fn answer_on_values(alloc: Global, name: &str, rest: &str) -> Result<Option<String>, NoMemory> {
    match name {
        "pack" => values::pack_case(alloc, rest),
        "is-packing" => values::is_packing_case(alloc, rest),
        "octets" => values::octets_case(alloc, rest),
        "random-values" => random_values::answer(alloc, rest),
        _ => answer_on_designs(alloc, name, rest),
    }
}

/// The answer of a case on designs and their parts, or of one of those below.
fn answer_on_designs(alloc: Global, name: &str, rest: &str) -> Result<Option<String>, NoMemory> {
    match name {
        "expression" => expressions::answer(alloc, rest),
        "begins-statement" => statements::begins(alloc, rest),
        "design" => designs::answer(alloc, rest),
        "places" => designs::places(alloc, rest),
        "random-designs" => random_designs::answer(alloc, rest),
        _ => answer_on_lines(alloc, name, rest),
    }
}

/// The answer of a case on texts that are read line by line; None where the name is none.
fn answer_on_lines(alloc: Global, name: &str, rest: &str) -> Result<Option<String>, NoMemory> {
    match name {
        "stimulus" => stimuli::answer(alloc, rest),
        "steps" => stimuli::steps(alloc, rest),
        "lines" => lines::answer(alloc, rest),
        "number" => lines::number(alloc, rest),
        "hex" => lines::hex(alloc, rest),
        _ => Ok(None),
    }
}
