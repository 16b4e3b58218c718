//! A text that was made whole, given out in pieces.
ghost use Rattle.std.specs.Prelude.{◌≡◌};

use crate::{Finish, LONGEST_PIECE, Printer};
use esi_base::{NoMemory, Octets};

/// A text that was made whole, and the finish after it.
#[derive(Debug, Drop)]
pub struct WholeText {
    text: Octets,
    given: usize,
    finish: Finish,
}

impl WholeText {
    ghost use Rattle.command_runs.specs.WholeText.{text_left, text_finish};

    /// The whole of a text, and the finish after it. It takes no memory.
    pub fn new(text: Octets, finish: Finish) -> WholeText
        ensures left { text_left result ≡ text }
        ensures finish { text_finish result ≡ finish }
    {
        WholeText {
            text,
            given: 0,
            finish,
        }
    }
}

impl Printer for WholeText {
    ghost use Rattle.command_runs.specs.WholeText.{text_left, text_finish};

    ghost left = { text_left };

    ghost finish = { text_finish };

    fn next(&mut self, piece: &mut Octets) -> Result<(), NoMemory> {
        let given = self.given.min(self.text.len());
        let count = (self.text.len() - given).min(LONGEST_PIECE);
        if count > 0 {
            piece.push_all(&self.text.as_slice()[given..given + count])?;
            self.given = given + count;
        }
        Ok(())
    }

    /// It takes no memory.
    fn finish(self) -> Result<Finish, NoMemory> {
        let WholeText { finish, .. } = self;
        Ok(finish)
    }
}
