//! What a command makes of the texts of its files.
ghost use Rattle.std.specs.Prelude.{◌≡◌};
ghost use Rattle.command_runs.specs.Work.{suffix_text, stop_in_file};

use esi_base::{Octets, Refusal, Stop};

/// What stands after a word of the command line in the name of a file that is written.
#[derive(Clone, Copy, Debug, PartialEq, Eq)]
pub enum Suffix {
    /// Nothing: the word is the name.
    Bare,
    /// `.v`
    Verilog,
    /// `.json`
    Json,
}

impl Suffix {
    /// The suffix as text.
    pub fn text(self) -> &'static str
        ensures { result.now ≡ suffix_text self }
    {
        match self {
            Suffix::Bare => "",
            Suffix::Verilog => ".v",
            Suffix::Json => ".json",
        }
    }
}

/// A file that a command writes: its name is the word with this number, from 0, among the words after
/// the command, followed by the suffix.
#[derive(Clone, Copy, Debug, PartialEq, Eq)]
pub struct Target {
    pub word: u32,
    pub suffix: Suffix,
}

/// A file to write, with its whole text.
#[derive(Debug, Drop)]
pub struct FileText {
    pub target: Target,
    pub text: Octets,
}

/// A text is refused: the number of its file's name, from 0, among the words after the command, and
/// the refusal.
#[derive(Clone, Copy, Debug, PartialEq, Eq)]
pub struct FileRefusal {
    pub word: u32,
    pub refusal: Refusal,
}

/// Why a command's work stopped: a text is refused, or it ran out of memory.
pub type WorkStop = Stop<FileRefusal>;

/// What a reader's stop is for the work: a refusal is of the file that this word names.
pub fn stop_in_file(word: u32, stop: Stop) -> WorkStop
    ensures { result ≡ stop_in_file word stop }
{
    match stop {
        Stop::Refused(refusal) => Stop::Refused(FileRefusal { word, refusal }),
        Stop::NoMemory => Stop::NoMemory,
    }
}
