//! Files that tell the log of their reads.
ghost use Rattle.std.specs.Prelude.{◌≡◌, ◌<◌, ◌+◌, ◌-◌, ◌++◌, ◌∷◌, [], Option, Some, OnOk, OnErr, length, take};
ghost use Rattle.esi_links.specs.ReadLog.{notes_of, read_note as note_of};

use crate::{Files, Note, OutStop};
use esi_base::{List, NoMemory, Octets};
use std::alloc::Global;

/// Files that note each of their reads, and tell this log. In all else they are as the files that
/// they stand on; only that a read takes memory for its note.
#[derive(Drop)]
pub struct NotingFiles<F> {
    alloc: Global,
    files: F,
    notes: List<Note>,
}

impl<F: Files> NotingFiles<F> {
    ghost use Rattle.esi_links.specs.Noting.{noted_files, noted_reads};

    /// Files of which no read was noted yet. It takes no memory.
    pub fn new(alloc: Global, files: F) -> NotingFiles<F>
        ensures files { noted_files result ≡ files }
        ensures notes { noted_reads result ≡ [] }
    {
        NotingFiles {
            alloc,
            files,
            notes: List::new(alloc),
        }
    }

    /// The reads that were noted, in their order.
    pub fn notes(&self) -> &[Note]
        ensures { result.now ≡ noted_reads self.now }
    {
        self.notes.as_slice()
    }

    /// The files that they stand on.
    pub fn files(&self) -> &F
        ensures { result.now ≡ noted_files self.now }
    {
        &self.files
    }
}

impl<F: Files> Files for NotingFiles<F> {
    ghost use Rattle.esi_links.specs.Noting.{noted_files, noted_reads};

    ghost text = { λ noting. F.text (noted_files noting) };

    ghost unreadable = { λ noting. F.unreadable (noted_files noting) };

    ghost log = { λ noting. Some (noted_reads noting) };

    ghost read_faults = { λ noting. F.read_faults (noted_files noting) };

    ghost write_faults = { λ noting. F.write_faults (noted_files noting) };

    fn read(&mut self, name: &str, at: u64, into: &mut [u8]) -> Result<usize, OutStop> {
        let file = Octets::from_slice(self.alloc, name.as_bytes())?;
        let room = into.len();
        make_room(self.alloc, &mut self.notes)?;
        let answer = self.files.read(name, at, into);
        put_note(&mut self.notes, file, at, room, &answer);
        answer
    }

    fn write(&mut self, name: &str, octets: &[u8]) -> Result<(), OutStop> {
        self.files.write(name, octets)
    }
}

/// Adds a note that says nothing, so that one that does can take its place.
fn make_room(alloc: Global, notes: &mut List<Note>) -> Result<(), NoMemory>
    ensures longer { OnOk result (length notes.new ≡ length notes.old + 1) }
    ensures prefix { OnOk result (take (length notes.old) notes.new ≡ notes.old) }
    ensures refused { OnErr result (notes.new ≡ notes.old) }
{
    let blank = Note {
        name: Octets::new(alloc),
        at: 0,
        room: 0,
        count: None,
    };
    notes.add(blank)
}

/// Puts what a read notes in place of the last note.
fn put_note(
    notes: &mut List<Note>,
    name: Octets,
    at: u64,
    room: usize,
    answer: &Result<usize, OutStop>,
)
    requires { 0 < length notes.old }
    ensures { notes.new ≡ take (length notes.old - 1) notes.old ++ notes_of name at room answer.now }
{
    match answer {
        Ok(count) => put_last(notes, read_note(name, at, room, Some(*count))),
        Err(OutStop::Fault) => put_last(notes, read_note(name, at, room, None)),
        Err(OutStop::NoMemory) => notes.truncate(notes.len() - 1),
    }
}

/// The note of a read.
fn read_note(name: Octets, at: u64, room: usize, count: Option<usize>) -> Note
    ensures { result ≡ note_of name at room count }
{
    Note {
        name,
        at,
        room,
        count,
    }
}

/// Puts a note in place of the last one.
fn put_last(notes: &mut List<Note>, note: Note)
    requires { 0 < length notes.old }
    ensures { notes.new ≡ take (length notes.old - 1) notes.old ++ note ∷ [] }
{
    let last = notes.len() - 1;
    let _older = notes.set(last, note);
}
