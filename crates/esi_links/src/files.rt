//! Files, as a program reaches them.
ghost use Rattle.std.specs.Prelude.{◌≡◌, ◌≢◌, ℕ, ◌<◌, ◌≤◌, Bool, false, List, Option, length, take, IfOk, OnOk, OnErr, IfSome, IsSome, IsErrOf};
ghost use Rattle.esi_links.specs.Counts.{NoneFell, HasCauseAt, SameCounts};
ghost use Rattle.esi_links.specs.declared.note.Note.{Note as ReadNote};
ghost use Rattle.esi_links.specs.ReadLog.{AddsNotes, notes_of};
ghost use Rattle.esi_base.specs.declared.limits.TheConstants.{LONGEST_TEXT};
ghost use Rattle.esi_links.specs.Texts.{PieceAt, SameTexts, SameElsewhere};

use crate::OutStop;

/// Files by name. They tell, where they can, the text held under each name, and they count the
/// reads and the writes that failed. No count ever falls, and one that stands at its last value,
/// 2^64 - 1, stands still: a failure there counts as a rise. One counter may serve for several
/// counts.
pub trait Files {
    /// The text told under a name, if one is told.
    ghost text: { Self → List ℕ → Option (List ℕ) };

    /// Whether nothing can be read under a name, so that every read there fails.
    ghost unreadable: { Self → List ℕ → Bool };

    /// The reads that were made, in their order, if they are told. A read that failed is noted too;
    /// one that ran out of memory is not.
    ghost log: { Self → Option (List ReadNote) };

    /// How many reads under a name failed.
    ghost read_faults: { Self → List ℕ → ℕ };

    /// How many writes under a name failed.
    ghost write_faults: { Self → List ℕ → ℕ };

    /// Reads octets of the file under a name, from the octet at `at`, which counts from 0 and is at
    /// most `LONGEST_TEXT`. Ok(n): the first n octets of the piece are the n octets from `at`; 0 is the
    /// end of the file. Where the answer is not Ok, the piece is as before. Only a fault raises a
    /// count. Where it runs out of memory the files stay as they were.
    fn read(&mut self, name: &str, at: u64, into: &mut [u8]) -> Result<usize, OutStop>
        requires piece { 0 < length into.old }
        requires reach { at ≤ LONGEST_TEXT }
        ensures bound { IfOk result (λ n. n ≤ length into.new) }
        ensures octets { IfOk result (λ n. PieceAt (text self.old name.now) at (take n into.new)) }
        ensures readable { OnOk result (unreadable self.old name.now ≡ false) }
        ensures texts { SameTexts (text self.old) (text self.new) }
        ensures unreadables { (other : List ℕ) → unreadable self.new other ≡ unreadable self.old other }
        ensures log { AddsNotes (log self.old) (log self.new) (notes_of name.now at (length into.old) result) }
        ensures kept { OnErr result (into.new ≡ into.old) }
        ensures quiet_reads { OnOk result (SameCounts (read_faults self.old) (read_faults self.new)) }
        ensures quiet_writes { OnOk result (SameCounts (write_faults self.old) (write_faults self.new)) }
        ensures cause { HasCauseAt (read_faults self.old) (read_faults self.new) name.now result }
        ensures writes { NoneFell (write_faults self.old) (write_faults self.new) }
        ensures no_memory_reads { IsErrOf result OutStop.NoMemory → SameCounts (read_faults self.old) (read_faults self.new) }
        ensures no_memory_writes { IsErrOf result OutStop.NoMemory
            → SameCounts (write_faults self.old) (write_faults self.new) };

    /// Puts a text in place of the whole file under a name. After a fault any text may stand under
    /// that name. Only a fault raises a count. Where it runs out of memory the files stay as they were.
    fn write(&mut self, name: &str, octets: &[u8]) -> Result<(), OutStop>
        ensures written { OnOk result (IfSome (text self.new name.now) (λ text. text ≡ octets.now)) }
        ensures told { IfSome (text self.old name.now) (λ _. IsSome (text self.new name.now)) }
        ensures quiet_reads { OnOk result (SameCounts (read_faults self.old) (read_faults self.new)) }
        ensures quiet_writes { OnOk result (SameCounts (write_faults self.old) (write_faults self.new)) }
        ensures elsewhere { SameElsewhere name.now (text self.old) (text self.new) }
        ensures unreadables { (other : List ℕ) → other ≢ name.now → unreadable self.new other ≡ unreadable self.old other }
        ensures log { log self.new ≡ log self.old }
        ensures cause { HasCauseAt (write_faults self.old) (write_faults self.new) name.now result }
        ensures reads { NoneFell (read_faults self.old) (read_faults self.new) }
        ensures no_memory_texts { IsErrOf result OutStop.NoMemory → SameTexts (text self.old) (text self.new) }
        ensures no_memory_unreadables { IsErrOf result OutStop.NoMemory
            → (other : List ℕ) → unreadable self.new other ≡ unreadable self.old other }
        ensures no_memory_reads { IsErrOf result OutStop.NoMemory → SameCounts (read_faults self.old) (read_faults self.new) }
        ensures no_memory_writes { IsErrOf result OutStop.NoMemory
            → SameCounts (write_faults self.old) (write_faults self.new) };
}
