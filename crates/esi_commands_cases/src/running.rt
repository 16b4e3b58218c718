//! Runs cases, and prints what came of them.
use crate::case::{Case, Outside};
use crate::narrow_sink::NarrowSink;
use crate::printing::{print_outcome, print_reads, print_text};
use command_runs::Outcome;
use esi_base::{List, NoMemory};
use esi_commands::run;
use esi_links::{
    Files, MemoryFiles, MemorySink, NotingFiles, Sink, SureFiles, SureLinks, SureSink,
};
use std::alloc::Global;
use std::io;

/// Runs a case and prints what came of it. Where no line of a case was read there is none.
pub fn run_case(rt: &(impl Print + AllocGlobal), case: &Case) -> io::Result<()> {
    if case.title.is_empty() {
        return Ok(());
    }
    let title = case.title.as_str();
    println!(rt; "case {title}")?;
    match case.outside {
        Outside::Failing => over_failing(rt, case)?,
        Outside::Sure => over_sure(rt, case)?,
        Outside::Narrow { room } => over_narrow(rt, case, room)?,
    }
    println!(rt; "")
}

/// Runs a case over files and sinks of which chosen calls fail.
fn over_failing(rt: &(impl Print + AllocGlobal), case: &Case) -> io::Result<()> {
    let alloc = rt.alloc();
    let mut files = NotingFiles::new(alloc, memory_files(alloc, case).map_err(memory_error)?);
    let mut out = memory_sink(alloc, &case.failing_out).map_err(memory_error)?;
    let mut err = memory_sink(alloc, &case.failing_err).map_err(memory_error)?;
    let outcome = run_words(alloc, case, &mut files, &mut out, &mut err);
    print_outcome(rt, &outcome)?;
    print_text(rt, "out", out.written())?;
    print_text(rt, "err", err.written())?;
    print_reads(rt, files.notes())
}

/// Runs a case over an `out` that fills up.
fn over_narrow(rt: &(impl Print + AllocGlobal), case: &Case, room: usize) -> io::Result<()> {
    let alloc = rt.alloc();
    let mut files = NotingFiles::new(alloc, memory_files(alloc, case).map_err(memory_error)?);
    let mut out = NarrowSink::new(alloc, room);
    let mut err = memory_sink(alloc, &case.failing_err).map_err(memory_error)?;
    let outcome = run_words(alloc, case, &mut files, &mut out, &mut err);
    print_outcome(rt, &outcome)?;
    print_text(rt, "out", out.written())?;
    print_text(rt, "err", err.written())?;
    print_reads(rt, files.notes())
}

/// Runs a case over files and sinks that never fail.
fn over_sure(rt: &(impl Print + AllocGlobal), case: &Case) -> io::Result<()> {
    let alloc = rt.alloc();
    let mut files = NotingFiles::new(alloc, sure_files(alloc, case).map_err(memory_error)?);
    let mut out = SureSink::new(alloc);
    let mut err = SureSink::new(alloc);
    let outcome = run_words(alloc, case, &mut files, &mut out, &mut err);
    print_outcome(rt, &outcome)?;
    print_text(rt, "out", out.written())?;
    print_text(rt, "err", err.written())?;
    print_reads(rt, files.notes())
}

/// The case's files, of which chosen reads fail.
fn memory_files(alloc: Global, case: &Case) -> Result<MemoryFiles, NoMemory> {
    let failing = List::from_slice(alloc, case.failing_reads.as_slice())?;
    let mut files = MemoryFiles::new(alloc, failing, List::new(alloc));
    for file in &case.files {
        files.hold(file.name.as_str(), file.text.as_slice())?;
    }
    files.hold(case.last.name.as_str(), case.last.text.as_slice())?;
    Ok(files)
}

/// The case's files, which never fail.
fn sure_files(alloc: Global, case: &Case) -> Result<SureFiles, NoMemory> {
    let mut files = SureFiles::new(alloc);
    for file in &case.files {
        files.hold(file.name.as_str(), file.text.as_slice())?;
    }
    files.hold(case.last.name.as_str(), case.last.text.as_slice())?;
    Ok(files)
}

/// A sink of which chosen writes fail.
fn memory_sink(alloc: Global, failing: &List<u64>) -> Result<MemorySink, NoMemory> {
    let failing = List::from_slice(alloc, failing.as_slice())?;
    Ok(MemorySink::new(alloc, failing))
}

/// Out of memory, as an error of the program.
fn memory_error(_stop: NoMemory) -> io::Error {
    io::Error::from(io::ErrorKind::OutOfMemory)
}

/// Runs the case's command.
fn run_words<F: Files, O: Sink, E: Sink>(
    alloc: Global,
    case: &Case,
    files: &mut F,
    out: &mut O,
    err: &mut E,
) -> Outcome {
    let mut links = SureLinks::new(alloc, List::new(alloc));
    run(alloc, case.words.as_slice(), files, out, err, &mut links)
}
