//! The small command of the cases.
ghost use Rattle.std.specs.Prelude.{◌≡◌, ◌++◌, ◌∷◌, [], IfOk, OnOk};
ghost use Rattle.esi_base.specs.Answers.{AnswersAs};
ghost use Rattle.command_runs.specs.Account.{StaysWithin, effects_of};
ghost use Rattle.command_cases.specs.FoursLeft.{fours_left, fours_finish};
ghost use Rattle.command_cases.specs.SmallCommand.{small_account, small_work, effects_by, files_of, finish_of, end_of, end_by, keeps_of, too_long as too_long_in};
ghost use Rattle.command_cases.specs.SmallLaws.{small_cut};

use crate::fours::Fours;
use command_runs::{Command, End, FileRefusal, FileText, Finish, Output, Suffix, Target, WorkStop};
use endpoint_hub::Report;
use esi_base::{List, NoMemory, Octets, Place, Refusal, Stop};
use std::alloc::Global;

/// The most octets of each text: few, so that cases show texts above it.
pub const LONGEST_TEXT: usize = 8;

const _: () = prove!(LONGEST_TEXT == 8);

/// The number of the refusal of a text that is longer.
pub const TOO_LONG: u16 = 210;

const _: () = prove!(TOO_LONG == 210);

/// The limits of both texts.
const LIMITS: [usize; 2] = [LONGEST_TEXT, LONGEST_TEXT];

/// `FIRST SECOND PREFIX`: reads two files, writes PREFIX.v with the first text and PREFIX.json with the
/// second, prints both, and comes to the end that the first octet of the second text names.
pub struct Small;

impl Command for Small {
    type Lines = Fours;

    ghost account = { λ _. small_account };

    fn words(&self) -> usize {
        3
    }

    fn limits(&self) -> &[usize] {
        &LIMITS
    }

    fn work(&self, alloc: Global, texts: &[Octets]) -> Result<Output<Fours>, WorkStop> {
        match texts {
            [first, second] => work_of(alloc, first, second),
            _ => unreachable!(),
        }
    }

    ghost cut = { λ _. small_cut };

    ghost promised = { λ _ _. tt };
}

/// Checks the two texts, the first one first, and makes the output of them.
fn work_of(alloc: Global, first: &Octets, second: &Octets) -> Result<Output<Fours>, WorkStop>
    ensures makes { AnswersAs (effects_of fours_left fours_finish) (small_work first.now second.now) result }
    ensures within { StaysWithin small_account fours_finish result }
{
    if first.len() > LIMITS[0] {
        return Err(Stop::Refused(too_long(0)));
    }
    if second.len() > LIMITS[1] {
        return Err(Stop::Refused(too_long(1)));
    }
    Ok(make(alloc, first, second)?)
}

/// The refusal of a text above its limit.
fn too_long(word: u32) -> FileRefusal
    ensures { result ≡ too_long_in word }
{
    FileRefusal {
        word,
        refusal: Refusal {
            number: TOO_LONG,
            place: Place { line: 1, column: 1 },
        },
    }
}

/// Makes the files and what is printed.
fn make(alloc: Global, first: &Octets, second: &Octets) -> Result<Output<Fours>, NoMemory>
    ensures { IfOk result (λ made. effects_of fours_left fours_finish made ≡ effects_by first.now second.now) }
{
    let written = files(alloc, first, second)?;
    let mut text = Octets::from_slice(alloc, first.as_slice())?;
    text.push_all(second.as_slice())?;
    let finish = finish(alloc, second)?;
    let lines = Fours {
        text,
        given: 0,
        finish,
    };
    Ok(Output { written, lines })
}

/// The files that are written.
fn files(alloc: Global, first: &Octets, second: &Octets) -> Result<List<FileText>, NoMemory>
    ensures { IfOk result (λ files. files ≡ files_of first.now second.now) }
{
    let mut files = List::new(alloc);
    push_file(alloc, &mut files, Suffix::Verilog, first)?;
    push_file(alloc, &mut files, Suffix::Json, second)?;
    Ok(files)
}

/// Adds a file.
fn push_file(
    alloc: Global,
    files: &mut List<FileText>,
    suffix: Suffix,
    text: &Octets,
) -> Result<(), NoMemory>
    ensures { OnOk result (files.new ≡ files.old ++ (record { target = record { word = 2; suffix = suffix }; text = text.now }) ∷ []) }
{
    let text = Octets::from_slice(alloc, text.as_slice())?;
    let target = Target { word: 2, suffix };
    files.add(FileText { target, text })
}

/// What the work comes to.
fn finish(alloc: Global, second: &Octets) -> Result<Finish, NoMemory>
    ensures { IfOk result (λ finish. finish ≡ finish_of second.now) }
{
    let end = end(alloc, second.as_slice())?;
    let closing = Octets::from_slice(alloc, second.as_slice())?;
    Ok(Finish {
        end,
        report: Some(Report {
            cycles: 0,
            taken: List::new(alloc),
            handed: List::new(alloc),
            attached: List::new(alloc),
            registers: List::new(alloc),
        }),
        keeps_report: keeps(second.as_slice()),
        closing,
    })
}

/// The end that the first octet names.
fn end(alloc: Global, text: &[u8]) -> Result<End, NoMemory>
    ensures { IfOk result (λ end. end ≡ end_of text.now) }
{
    match text {
        [] => Ok(End::Done),
        [octet, ..] => named_end(alloc, *octet),
    }
}

/// The end that an octet names.
fn named_end(alloc: Global, octet: u8) -> Result<End, NoMemory>
    ensures { IfOk result (λ end. end ≡ end_by octet) }
{
    match octet {
        b'5' => Ok(End::LinkFault),
        b'6' => Ok(End::PeerFault { code: 1 }),
        b'7' => Ok(End::Unfinished { count: 3 }),
        b'9' => Ok(End::TurnsSpent { count: 4 }),
        b's' => {
            let name = Octets::from_slice(alloc, b"in")?;
            Ok(End::PeerStatus { name, status: 2 })
        }
        _ => Ok(End::Done),
    }
}

/// Whether the report is kept.
fn keeps(text: &[u8]) -> bool
    ensures { result ≡ keeps_of text.now }
{
    match text {
        [] => false,
        [octet, ..] => *octet == b'k',
    }
}
