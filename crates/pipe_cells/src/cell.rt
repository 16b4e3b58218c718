//! A cell of a pipe: at most two words, the older one first.
ghost use Rattle.std.specs.Prelude.{◌≡◌, [], ◌∷◌, option_to_list};
ghost use Rattle.cycle_rules.specs.Lists.{first};
ghost use Rattle.pipe_cells.specs.Cells.{is_ready, cell_after};
ghost use Rattle.pipe_cells.specs.CellWords.{words_held};

use esi_base::Word;
use std::marker::Model;

/// What a cell may hold.
#[derive(Clone, Copy)]
enum Content {
    Empty,
    One(Word),
    /// The older word, then the newer one.
    Two(Word, Word),
}

/// A cell. Contracts see the list of its words, the older one first.
#[derive(Drop)]
pub struct Cell {
    content: Content,
}

impl Model for Cell {
    ghost use Rattle.std.specs.Prelude.{List, Bool};

    ghost Value = { List (List Bool) };

    ghost use Rattle.pipe_cells.specs.CellWords.{words_held};

    ghost view = { λ cell. words_held cell.content };
}

impl Cell {
    /// A cell with no word.
    pub fn empty() -> Cell
        ensures { result ≡ [] }
    {
        Cell {
            content: Content::Empty,
        }
    }

    /// Whether the cell takes a word in this cycle.
    pub fn is_ready(&self) -> bool
        ensures { result ≡ is_ready self.now }
    {
        match self.content {
            Content::Empty | Content::One(_) => true,
            Content::Two(_, _) => false,
        }
    }

    /// The word that the cell offers: its older one.
    pub fn first(&self) -> Option<Word>
        ensures { result ≡ first self.now }
    {
        match self.content {
            Content::Empty => None,
            Content::One(word) | Content::Two(word, _) => Some(word),
        }
    }

    /// The cell after a cycle, in which it is offered a word or none, and gives its own first word
    /// away or not.
    pub fn pass(&mut self, offered: Option<Word>, gives: bool)
        ensures { self.new ≡ cell_after offered self.old gives }
    {
        self.content = passed(&self.content, offered, gives);
    }
}

/// What a cell holds after a cycle.
fn passed(content: &Content, offered: Option<Word>, gives: bool) -> Content
    ensures { words_held result ≡ cell_after offered (words_held content.now) gives }
{
    match content {
        Content::Empty => filled(offered),
        Content::One(older) => {
            if gives {
                filled(offered)
            } else {
                joined(*older, offered)
            }
        }
        Content::Two(older, newer) => {
            if gives {
                Content::One(*newer)
            } else {
                Content::Two(*older, *newer)
            }
        }
    }
}

/// What was empty, after a word or none was offered to it.
fn filled(offered: Option<Word>) -> Content
    ensures { words_held result ≡ option_to_list offered }
{
    match offered {
        Some(word) => Content::One(word),
        None => Content::Empty,
    }
}

/// What held one word, after a further one or none was offered to it.
fn joined(older: Word, offered: Option<Word>) -> Content
    ensures { words_held result ≡ older ∷ option_to_list offered }
{
    match offered {
        Some(word) => Content::Two(older, word),
        None => Content::One(older),
    }
}
