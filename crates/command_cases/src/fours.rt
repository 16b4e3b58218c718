//! A text that is given out in pieces of four octets.

use command_runs::{Finish, Printer};
use esi_base::{NoMemory, Octets};

/// The octets of a piece.
const PIECE: usize = 4;

/// A text, of which so many octets were given, and the finish after it.
#[derive(Drop)]
pub struct Fours {
    pub text: Octets,
    pub given: usize,
    pub finish: Finish,
}

impl Printer for Fours {
    ghost use Rattle.command_cases.specs.FoursLeft.{fours_left, fours_finish};

    ghost left = { fours_left };

    ghost finish = { fours_finish };

    fn next(&mut self, piece: &mut Octets) -> Result<(), NoMemory> {
        let given = self.given.min(self.text.len());
        let count = (self.text.len() - given).min(PIECE);
        if count > 0 {
            piece.push_all(&self.text.as_slice()[given..given + count])?;
            self.given = given + count;
        }
        Ok(())
    }

    fn finish(self) -> Result<Finish, NoMemory> {
        let Fours { finish, .. } = self;
        Ok(finish)
    }
}
