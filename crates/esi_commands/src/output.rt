//! What a simulation prints, in pieces.
ghost use Rattle.std.specs.Prelude.{◌≡◌, ◌<◌, ◌≤◌, ◌+◌, ◌++◌, ◌↔◌, [], length, take, string_bytes, IsTrue, IfOk, OnOk};
ghost use Rattle.std.specs.List.{flat_map};
ghost use Rattle.cycle_rules.specs.PipeSimulation.{simulation_of};
ghost use Rattle.esi_base.specs.Octets.{octets_of};
ghost use Rattle.small_text.specs.Hexadecimal.{hex_of};
ghost use Rattle.command_runs.specs.Work.{all_done};
ghost use Rattle.esi_commands.specs.Output.{got_line, done_line, text_of, text_left};

use bit_packing::to_octets;
use command_runs::{Finish, LONGEST_PIECE, Printer};
use cycle_rules::Transfer;
use esi_base::{NoMemory, Octets, Word};
use pipe_cells::Pipe;
use small_text::push_hex;
use std::alloc::{AllocError, Global};

/// The most octets of a word.
const MOST_OCTETS: usize = 128;

/// No line is longer, in octets: a `got` line has two digits for each octet of its word, a cycle of at
/// most 20 digits and ten octets more; a `done` line has three numbers and 28 octets more.
const LONGEST_LINE: usize = 300;

const _: () = prove!(MOST_OCTETS == 128);

const _: () = prove!(LONGEST_LINE == 300);

/// The lines of a simulation that are still to be printed: a `got` line for each value handed, in
/// order, and the `done` line. Each is made when its piece is asked for.
#[derive(Drop)]
pub struct SimulationLines {
    alloc: Global,
    pipe: Pipe,
    /// How many of the values handed were printed.
    printed: usize,
    /// Whether all was printed, the `done` line too.
    is_done: bool,
    ghost within: { printed ≤ length pipe.handed },
}

impl SimulationLines {
    /// All the lines of a simulation.
    pub fn new(alloc: Global, pipe: Pipe) -> SimulationLines
        ensures { text_left (simulation_of result.pipe) result.printed result.is_done ≡ text_of (simulation_of pipe) }
    {
        SimulationLines {
            alloc,
            pipe,
            printed: 0,
            is_done: false,
        }
    }
}

impl Printer for SimulationLines {
    ghost left = { λ lines. text_left (simulation_of lines.pipe) lines.printed lines.is_done };

    ghost finish = { λ _. all_done };

    fn next(&mut self, piece: &mut Octets) -> Result<(), NoMemory> {
        if self.is_done {
            return Ok(());
        }
        self.printed += push_got_lines(self.alloc, &self.pipe.handed()[self.printed..], piece)?;
        if self.printed < self.pipe.handed().len() {
            return Ok(());
        }
        if !has_room(piece) {
            return Ok(());
        }
        push_done_line(self.alloc, &self.pipe, piece)?;
        self.is_done = true;
        Ok(())
    }

    fn finish(self) -> Result<Finish, NoMemory> {
        Ok(Finish::done(self.alloc))
    }
}

/// Whether a piece has room for one more line, whichever it is.
fn has_room(piece: &Octets) -> bool
    ensures { IsTrue result ↔ (length piece.now + LONGEST_LINE ≤ LONGEST_PIECE) }
{
    piece.len() <= LONGEST_PIECE - LONGEST_LINE
}

/// Puts the `got` lines of the first values into a piece, as many as there is room for, and answers how
/// many these are.
fn push_got_lines(alloc: Global, handed: &[Transfer], piece: &mut Octets) -> Result<usize, NoMemory>
    requires { piece.old ≡ [] }
    ensures lines { IfOk result (λ count. piece.new ≡ flat_map got_line (take count handed.now)) }
    ensures count { IfOk result (λ count. count ≤ length handed.now) }
    ensures bound { OnOk result (length piece.new ≤ LONGEST_PIECE) }
    ensures stopped { IfOk result (λ count. count < length handed.now → 0 < length piece.new) }
{
    for (count, transfer) in handed.iter().enumerate() {
        if !has_room(piece) {
            return Ok(count);
        }
        push_got_line(alloc, piece, transfer)?;
    }
    Ok(handed.len())
}

/// `got CYCLE NAME OCTETS`
fn push_got_line(alloc: Global, text: &mut Octets, transfer: &Transfer) -> Result<(), NoMemory>
    ensures line { OnOk result (text.new ≡ text.old ++ got_line transfer.now) }
    ensures short { OnOk result (length (got_line transfer.now) ≤ LONGEST_LINE) }
{
    let cycle = transfer.cycle;
    let head = format!(in alloc; "got {cycle} out ")?;
    text.push_all(head.as_str().as_bytes())?;
    push_octets(text, &transfer.word)?;
    text.push_all(b"\n")?;
    Ok(())
}

/// Adds the octets of a word, two hexadecimal digits each.
fn push_octets(text: &mut Octets, word: &Word) -> Result<(), NoMemory>
    ensures digits { OnOk result (text.new ≡ text.old ++ hex_of (octets_of word.now)) }
    ensures few { length (octets_of word.now) ≤ MOST_OCTETS }
{
    let mut octets = [0; MOST_OCTETS];
    let octets = &mut octets[..word.width().div_ceil(8) as usize];
    to_octets(word, octets);
    push_hex(text, octets)
}

/// Puts the `done` line after a piece.
fn push_done_line(alloc: Global, pipe: &Pipe, text: &mut Octets) -> Result<(), NoMemory>
    ensures line { OnOk result (text.new ≡ text.old ++ done_line (simulation_of pipe.now)) }
    ensures short { OnOk result (length (done_line (simulation_of pipe.now)) ≤ LONGEST_LINE) }
{
    let line = done_line(alloc, pipe)?;
    text.push_all(line.as_str().as_bytes())?;
    Ok(())
}

/// `done cycles N taken N handed N`
fn done_line(alloc: Global, pipe: &Pipe) -> Result<String, AllocError>
    ensures line { IfOk result (λ line. string_bytes line ≡ done_line (simulation_of pipe.now)) }
    ensures short { OnOk result (length (done_line (simulation_of pipe.now)) ≤ LONGEST_LINE) }
{
    let cycles = pipe.cycle_count();
    let taken = pipe.taken_count();
    let handed = pipe.handed().len();
    let line = format!(in alloc; "done cycles {cycles} taken {taken} handed {handed}\n")?;
    Ok(line)
}
