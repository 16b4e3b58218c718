//! Output that is given out in pieces.
ghost use Rattle.std.specs.Prelude.{◌≡◌, ℕ, ◌<◌, ◌≤◌, ◌++◌, [], length, IfOk, OnOk, OnErr, List as Listed};
ghost use Rattle.command_runs.specs.declared.finish.Finish.{Finish as Finished};

use crate::Finish;
use esi_base::{NoMemory, Octets};

/// The most octets of a piece: so the memory of a run does not grow with what it prints.
pub const LONGEST_PIECE: usize = 65_536;

const _: () = prove!(LONGEST_PIECE == 65536);

/// The lines that a command prints, given out in pieces of at most `LONGEST_PIECE` octets, and the finish that
/// is known when all of them were given. A piece with no octet is the end.
///
/// It runs out of memory only while something is still to be printed: so then a prefix of the output
/// was printed that is not the whole.
pub trait Printer: Drop {
    /// The octets that are still to come.
    ghost left: { Self → Listed ℕ };

    /// The finish after them.
    ghost finish: { Self → Finished };

    /// The next piece, put into a list that is empty.
    fn next(&mut self, piece: &mut Octets) -> Result<(), NoMemory>
        requires empty { piece.old ≡ [] }
        ensures piece { OnOk result (left self.old ≡ piece.new ++ left self.new) }
        ensures bound { OnOk result (length piece.new ≤ LONGEST_PIECE) }
        ensures end { OnOk result (length piece.new ≡ 0 → left self.new ≡ []) }
        ensures kept { OnOk result (finish self.new ≡ finish self.old) }
        ensures some { OnErr result (0 < length (left self.old ++ (finish self.old).closing)) };

    /// The finish, once nothing is left.
    fn finish(self) -> Result<Finish, NoMemory>
        requires { left self ≡ [] }
        ensures made { IfOk result (λ made. made ≡ finish self) }
        ensures some { OnErr result (0 < length (finish self).closing) };
}
