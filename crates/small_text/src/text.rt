//! The lines of a small text that count, and their parts (docs/small-texts.md, "Lines and parts").
ghost use Rattle.std.specs.Prelude.{◌≡◌, ◌+◌, ◌<◌, ◌≤◌, ◌==◌, ◌^◌, ◌∷◌, [], not, length, MatchOption, IfNone};
ghost use Rattle.std.specs.List.{prefix_len};
ghost use Rattle.small_text.specs.Lines.{lines, line_of as counting_line, counting_lines, place_of};

use esi_base::{LONGEST_TEXT, Place};
use std::marker::Model;

/// A part of a line: a longest run of octets other than space.
#[derive(Drop)]
pub struct Part<'a> {
    octets: &'a [u8],
    column: u32,
}

impl<'a> Model for Part<'a> {
    ghost use Rattle.small_text.specs.Lines.{Part as PartOfLine};

    ghost Value = { PartOfLine };

    ghost view = { λ p. record { column = p.column; octets = p.octets.now } };
}

/// What is left of a line. Contracts see the parts in it.
#[derive(Drop)]
struct RestOfLine<'a> {
    rest: &'a [u8],
    column: u32,
}

impl<'a> Model for RestOfLine<'a> {
    ghost use Rattle.std.specs.Prelude.{List, ◌+◌, ◌<◌, ◌^◌, length};
    ghost use Rattle.small_text.specs.Lines.{Part as PartOfLine, parts_from};

    ghost Value = { List PartOfLine };

    ghost view = { λ p. parts_from p.column p.rest.now };

    ghost invariant = { λ p. p.column + length p.rest.now < 2 ^ 32 };
}

/// A line that counts: its first part, and the parts after it, which `next_part` takes one by one.
#[derive(Drop)]
pub struct Line<'a> {
    number: u32,
    word: Part<'a>,
    others: RestOfLine<'a>,
}

impl<'a> Model for Line<'a> {
    ghost use Rattle.small_text.specs.Lines.{Line as LineOfText};

    ghost Value = { LineOfText };

    ghost view = { λ l. record { number = l.number; word = l.word; others = l.others } };
}

/// The lines of a text that count, one after another. It borrows the text and copies nothing.
#[derive(Drop)]
pub struct Lines<'a> {
    rest: &'a [u8],
    number: u32,
}

impl<'a> Model for Lines<'a> {
    ghost use Rattle.std.specs.Prelude.{List, ◌+◌, ◌-◌, ◌<◌, ◌^◌, length};
    ghost use Rattle.small_text.specs.Lines.{Line as LineOfText, lines, numbered_from};

    ghost Value = { List LineOfText };

    ghost view = { λ s. numbered_from s.number (lines s.rest.now) };

    ghost invariant = { λ s. s.number + length s.rest.now < 2 ^ 32 - 1 };
}

impl<'a> Part<'a> {
    /// The octets of the part.
    pub fn octets(&self) -> &[u8]
        ensures { result.now ≡ self.now.octets }
    {
        self.octets
    }

    /// The column of the part's first octet, which counts from 1.
    pub fn column(&self) -> u32
        ensures { result ≡ self.now.column }
    {
        self.column
    }
}

impl<'a> Line<'a> {
    /// The line's number, which counts from 1 over all lines of the text.
    pub fn number(&self) -> u32
        ensures { result ≡ self.now.number }
    {
        self.number
    }

    /// The line's first part.
    pub fn word(&self) -> &Part<'a>
        ensures { result.now ≡ self.now.word }
    {
        &self.word
    }

    /// The place of a part of the line.
    pub fn place(&self, part: &Part<'_>) -> Place
        ensures { result ≡ place_of self.now.number part.now }
    {
        Place {
            line: self.number,
            column: part.column,
        }
    }

    /// Takes the next part after the first one.
    pub fn next_part(&mut self) -> Option<Part<'a>>
        ensures next { MatchOption result
            (self.old.others ≡ [])
            (λ part. self.new ≡ record self.old { others = self.new.others }
            × (self.old.others ≡ part ∷ self.new.others)) }
        ensures ended { IfNone result (self.new ≡ self.old) }
    {
        self.others.next_part()
    }
}

impl<'a> RestOfLine<'a> {
    fn next_part(&mut self) -> Option<Part<'a>>
        ensures next { MatchOption result (self.old ≡ []) (λ part. self.old ≡ part ∷ self.new) }
        ensures ended { IfNone result (self.new ≡ self.old) }
    {
        let spaces = spaces_len(self.rest);
        let (_, word) = self.rest.split_at(spaces);
        let len = part_len(word);
        if len == 0 {
            return None;
        }
        let column = self.column + spaces as u32;
        let (octets, rest) = word.split_at(len);
        self.rest = rest;
        self.column = column + len as u32;
        Some(Part { octets, column })
    }
}

impl<'a> Lines<'a> {
    /// The lines of a text.
    pub fn new(text: &'a [u8]) -> Lines<'a>
        requires { length text.now ≤ LONGEST_TEXT }
        ensures { result ≡ counting_lines text.now }
    {
        Lines {
            rest: text,
            number: 1,
        }
    }

    /// Takes the next line that counts.
    pub fn next_line(&mut self) -> Option<Line<'a>>
        ensures next { MatchOption result (self.old ≡ []) (λ line. self.old ≡ line ∷ self.new) }
        ensures ended { IfNone result (self.new ≡ []) }
    {
        let mut rest = self.rest;
        let mut number = self.number;
        while !rest.is_empty() {
            let (text, after) = cut_line(rest);
            match line_of(text, number) {
                Some(line) => {
                    self.rest = after;
                    self.number = number + 1;
                    return Some(line);
                }
                None => {
                    rest = after;
                    number += 1;
                }
            }
        }
        self.rest = rest;
        self.number = number;
        None
    }
}

/// The first line of a text that is not empty, without its LF, and what is after it.
fn cut_line(text: &[u8]) -> (&[u8], &[u8])
    requires { 0 < length text.now }
    ensures cut { lines text.now ≡ result.0.now ∷ lines result.1.now }
    ensures line_len { length result.0.now ≤ length text.now }
    ensures after_len { length result.1.now < length text.now }
{
    let (line, rest) = text.split_at(line_len(text));
    match rest {
        [] => (line, rest),
        [_, after @ ..] => (line, after),
    }
}

/// A line, if it counts.
fn line_of<'a>(text: &'a [u8], number: u32) -> Option<Line<'a>>
    requires { 1 + length text.now < 2 ^ 32 }
    ensures { result ≡ counting_line number text.now }
{
    if text.first() == Some(&b'#') {
        return None;
    }
    let mut others = RestOfLine {
        rest: text,
        column: 1,
    };
    let word = others.next_part()?;
    Some(Line {
        number,
        word,
        others,
    })
}

/// How many spaces a text begins with.
fn spaces_len(text: &[u8]) -> usize
    ensures count { result ≡ prefix_len (λ b. b == 32) text.now }
    ensures within { result ≤ length text.now }
{
    text.iter().take_while(|octet| **octet == b' ').count()
}

/// How many octets other than space a text begins with.
fn part_len(text: &[u8]) -> usize
    ensures count { result ≡ prefix_len (λ b. not (b == 32)) text.now }
    ensures within { result ≤ length text.now }
{
    text.iter().take_while(|octet| **octet != b' ').count()
}

/// How many octets other than LF a text begins with.
fn line_len(text: &[u8]) -> usize
    ensures count { result ≡ prefix_len (λ b. not (b == 10)) text.now }
    ensures within { result ≤ length text.now }
{
    text.iter().take_while(|octet| **octet != b'\n').count()
}
