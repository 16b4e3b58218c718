//! One run of the small command, over files and sinks in memory.
use crate::run_text::{outcome_text, push_held, push_quoted, push_reads};
use crate::small::Small;
use command_runs::run_command;
use esi_base::List;
use esi_links::{MemoryFiles, MemorySink, NotingFiles};
use std::alloc::{AllocError, Global};

/// A kind of call of the outside.
#[derive(Clone, Copy, PartialEq, Eq)]
pub enum Kind {
    Read,
    Write,
    Out,
    Err,
}

impl Kind {
    /// Its name in a row.
    pub fn name(self) -> &'static str {
        match self {
            Kind::Read => "read",
            Kind::Write => "write",
            Kind::Out => "out",
            Kind::Err => "err",
        }
    }
}

/// The call that fails: of this kind, with this number from 0.
#[derive(Clone, Copy)]
pub struct Failing {
    pub kind: Kind,
    pub call: u64,
}

/// The numbers of the calls of a kind that fail.
fn failing_calls(
    alloc: Global,
    failing: Option<Failing>,
    kind: Kind,
) -> Result<List<u64>, AllocError> {
    match failing {
        Some(failing) if failing.kind == kind => List::from_slice(alloc, &[failing.call]),
        _ => Ok(List::new(alloc)),
    }
}

/// The outside of a run: files `a` and `b`, and two sinks.
#[derive(Drop)]
struct Outside {
    files: NotingFiles<MemoryFiles>,
    out: MemorySink,
    err: MemorySink,
}

/// Files with these texts.
fn files_of(
    alloc: Global,
    first: &str,
    second: &str,
    failing: Option<Failing>,
) -> Result<MemoryFiles, AllocError> {
    let reads = failing_calls(alloc, failing, Kind::Read)?;
    let writes = failing_calls(alloc, failing, Kind::Write)?;
    let mut files = MemoryFiles::new(alloc, reads, writes);
    if files.hold("a", first.as_bytes()).is_err() || files.hold("b", second.as_bytes()).is_err() {
        return Err(AllocError);
    }
    Ok(files)
}

/// The outside of a run on these texts.
fn outside_of(
    alloc: Global,
    first: &str,
    second: &str,
    failing: Option<Failing>,
) -> Result<Outside, AllocError> {
    let files = files_of(alloc, first, second, failing)?;
    let out = failing_calls(alloc, failing, Kind::Out)?;
    let err = failing_calls(alloc, failing, Kind::Err)?;
    Ok(Outside {
        files: NotingFiles::new(alloc, files),
        out: MemorySink::new(alloc, out),
        err: MemorySink::new(alloc, err),
    })
}

/// The words after the small command.
fn words(alloc: Global) -> Result<Vec<String>, AllocError> {
    let mut words = Vec::new(alloc);
    for word in ["a", "b", "p"] {
        words.push(String::from_str(alloc, word)?)?;
    }
    Ok(words)
}

/// What comes of the small command on files `a` and `b` with these texts and the prefix `p`: how it
/// ends, the reads that were made, the files written, and what `out` and `err` got.
pub fn run_of(
    alloc: Global,
    first: &str,
    second: &str,
    failing: Option<Failing>,
) -> Result<String, AllocError> {
    let mut outside = outside_of(alloc, first, second, failing)?;
    let words = words(alloc)?;
    let outcome = run_command(
        alloc,
        &Small,
        words.as_slice(),
        &mut outside.files,
        &mut outside.out,
        &mut outside.err,
    );
    let mut text = outcome_text(alloc, &outcome)?;
    push_outside(&mut text, &outside)?;
    Ok(text)
}

/// Adds what came of the outside.
fn push_outside(text: &mut String, outside: &Outside) -> Result<(), AllocError> {
    push_reads(text, outside.files.notes())?;
    push_held(text, "; p.v ", outside.files.files().held("p.v"))?;
    push_held(text, " p.json ", outside.files.files().held("p.json"))?;
    push_quoted(text, "; out ", outside.out.written())?;
    push_quoted(text, "; err ", outside.err.written())
}
