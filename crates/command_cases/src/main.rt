//! Cases of conducting a command. Each line of the input has two texts. A small command is run on them
//! over files and sinks in memory, of which the k-th call of each kind fails, for k from 0 until a run
//! meets no failure. Each run is a line of the output.
#![tactic(auto)]

mod fours;
mod run;
mod run_text;
mod small;

use crate::run::{Failing, Kind, run_of};
use std::alloc::{AllocError, Global};
use std::io;

/// Prints each line of the input, and the runs on its texts after it. A line that begins with `#` is a
/// title.
fn main(rt: HostRuntime) -> io::Result<()> {
    let alloc = rt.alloc();
    for line in rt.lines(alloc) {
        let line = line?;
        println!(rt; "{line}")?;
        if let Some((first, second)) = texts_of(line.as_str()) {
            let table = table_of(alloc, first, second)?;
            for row in &table {
                println!(rt; "  {row}")?;
            }
        }
    }
    Ok(())
}

/// The two texts of a line, each between dots; None where it is a title.
fn texts_of(line: &str) -> Option<(&str, &str)> {
    let (first, second) = line.strip_prefix(".")?.split_once(". .")?;
    Some((first, second.strip_suffix(".")?))
}

/// The most calls of a kind that a run makes here.
const MOST_CALLS: u64 = 12;

/// A row for each run: first the one in which no call fails, and then those in which the k-th call of a
/// kind does, up to the first that comes out as if none did.
fn table_of(alloc: Global, first: &str, second: &str) -> Result<Vec<String>, AllocError> {
    let whole = run_of(alloc, first, second, None)?;
    let mut rows = Vec::new(alloc);
    rows.push(row_of(alloc, "no failure", None, whole.as_str())?)?;
    for kind in [Kind::Read, Kind::Write, Kind::Out, Kind::Err] {
        push_rows(alloc, &mut rows, first, second, kind, whole.as_str())?;
    }
    Ok(rows)
}

/// Adds the rows of the runs in which calls of a kind fail.
fn push_rows(
    alloc: Global,
    rows: &mut Vec<String>,
    first: &str,
    second: &str,
    kind: Kind,
    whole: &str,
) -> Result<(), AllocError> {
    for call in 0..MOST_CALLS {
        let run = run_of(alloc, first, second, Some(Failing { kind, call }))?;
        if run.as_str() == whole {
            rows.push(row_of(alloc, kind.name(), Some(call), "the same")?)?;
            return Ok(());
        }
        rows.push(row_of(alloc, kind.name(), Some(call), run.as_str())?)?;
    }
    Ok(())
}

/// A row: what failed, and what came of the run.
fn row_of(alloc: Global, name: &str, call: Option<u64>, run: &str) -> Result<String, AllocError> {
    match call {
        Some(call) => Ok(format!(in alloc; "{name} {call}: {run}")?),
        None => Ok(format!(in alloc; "{name}: {run}")?),
    }
}
