//! A case: the words of a command, the files that it finds, and the calls that are to fail.
use esi_base::{List, Octets};
use std::alloc::{AllocError, Global};
use std::mem;

/// A file that is held when the command begins.
#[derive(Drop)]
pub struct HeldFile {
    pub name: String,
    pub text: Octets,
}

/// What the command is run over.
#[derive(Clone, Copy)]
pub enum Outside {
    /// Files and sinks of which chosen calls fail.
    Failing,
    /// Files and sinks that never fail.
    Sure,
    /// As the first, but `out` takes five octets at a time, up to a room, and then fails.
    Narrow { room: usize },
}

/// A case. Its lines, in any number and order:
///
/// - `case TITLE`, `words WORD WORD ..`
/// - `file NAME`, and after it its text: `> TEXT` a line with LF, `| TEXT` the same without LF,
///   `blanks N` so many blanks
/// - `fails read N`, `fails out N`, `fails err N`: the call with this number, from 0
/// - `sure`: over files and sinks that never fail
/// - `room N`: `out` takes five octets at a time, up to N octets
/// - `# REMARK`
#[derive(Drop)]
pub struct Case {
    pub title: String,
    pub words: Vec<String>,
    pub files: Vec<HeldFile>,
    /// The file whose text is read.
    pub last: HeldFile,
    pub failing_reads: List<u64>,
    pub failing_out: List<u64>,
    pub failing_err: List<u64>,
    pub outside: Outside,
}

impl Case {
    /// A case of which nothing was read.
    pub fn new(alloc: Global) -> Case {
        Case {
            title: String::new(alloc),
            words: Vec::new(alloc),
            files: Vec::new(alloc),
            last: HeldFile {
                name: String::new(alloc),
                text: Octets::new(alloc),
            },
            failing_reads: List::new(alloc),
            failing_out: List::new(alloc),
            failing_err: List::new(alloc),
            outside: Outside::Failing,
        }
    }

    /// Reads one more line. Answers false where it is none.
    pub fn read_line(&mut self, alloc: Global, line: &str) -> Result<bool, AllocError> {
        match line.split_once(' ') {
            Some((word, rest)) => self.read_words(alloc, word, rest),
            None => self.read_word(line),
        }
    }

    fn read_word(&mut self, word: &str) -> Result<bool, AllocError> {
        match word {
            "words" | "#" | "|" => Ok(true),
            ">" => self.add_text(b"\n"),
            "sure" => {
                self.outside = Outside::Sure;
                Ok(true)
            }
            _ => Ok(false),
        }
    }

    fn read_words(&mut self, alloc: Global, word: &str, rest: &str) -> Result<bool, AllocError> {
        match word {
            "#" => Ok(true),
            "case" => {
                self.title = String::from_str(alloc, rest)?;
                Ok(true)
            }
            "words" => self.add_words(alloc, rest),
            "file" => self.begin_file(alloc, rest),
            ">" => {
                self.last.text.push_all(rest.as_bytes())?;
                self.add_text(b"\n")
            }
            "|" => self.add_text(rest.as_bytes()),
            "blanks" => self.add_blanks(rest),
            "fails" => self.add_failing(rest),
            "room" => Ok(self.set_room(rest)),
            _ => Ok(false),
        }
    }

    fn add_words(&mut self, alloc: Global, words: &str) -> Result<bool, AllocError> {
        for word in words.split(' ') {
            self.words.push(String::from_str(alloc, word)?)?;
        }
        Ok(true)
    }

    fn begin_file(&mut self, alloc: Global, name: &str) -> Result<bool, AllocError> {
        let next = HeldFile {
            name: String::from_str(alloc, name)?,
            text: Octets::new(alloc),
        };
        let last = mem::replace(&mut self.last, next);
        self.files.push(last)?;
        Ok(true)
    }

    fn add_text(&mut self, text: &[u8]) -> Result<bool, AllocError> {
        self.last.text.push_all(text)?;
        Ok(true)
    }

    fn add_blanks(&mut self, count: &str) -> Result<bool, AllocError> {
        let Ok(count) = count.parse::<u32>() else {
            return Ok(false);
        };
        for blank in 0..count {
            self.last.text.push_all(b" ")?;
        }
        Ok(true)
    }

    fn add_failing(&mut self, call: &str) -> Result<bool, AllocError> {
        let Some((kind, number)) = call.split_once(' ') else {
            return Ok(false);
        };
        let Ok(number) = number.parse::<u64>() else {
            return Ok(false);
        };
        match kind {
            "read" => self.failing_reads.push_all(&[number])?,
            "out" => self.failing_out.push_all(&[number])?,
            "err" => self.failing_err.push_all(&[number])?,
            _ => return Ok(false),
        }
        Ok(true)
    }

    fn set_room(&mut self, room: &str) -> bool {
        match room.parse::<usize>() {
            Ok(room) => {
                self.outside = Outside::Narrow { room };
                true
            }
            Err(_) => false,
        }
    }
}
