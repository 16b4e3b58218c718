//! Files in memory that never fail.
ghost use Rattle.std.specs.Prelude.{◌≡◌, ◌<◌, ◌≤◌, ℕ, List, Option, None, Some, length, take, false, IfOk, OnOk, OnErr, IfSome, IsSome, IsErrOf, Ok};
ghost use Rattle.std.specs.Option.{option_copied};
ghost use Rattle.esi_links.specs.Counts.{NoneFell, HasCauseAt, SameCounts};
ghost use Rattle.esi_base.specs.declared.limits.TheConstants.{LONGEST_TEXT};
ghost use Rattle.esi_links.specs.Texts.{PieceAt, SameTexts, SameElsewhere};

use crate::holding::{Held, copy_piece, hold_text};
use crate::{Files, OutStop};
use esi_base::NoMemory;
use std::alloc::Global;

/// Files in memory that never fail, so their counts of faults are 0. They tell the texts that they
/// hold, and an empty one under every other name.
#[derive(Drop)]
pub struct SureFiles {
    alloc: Global,
    held: Held,
}

impl SureFiles {
    ghost use Rattle.esi_links.specs.Held.{sure_text};

    /// Files that hold nothing yet. It takes no memory.
    pub fn new(alloc: Global) -> SureFiles
        ensures { (name : List ℕ) → sure_text result name ≡ None }
    {
        SureFiles {
            alloc,
            held: Held::new(alloc),
        }
    }

    /// Puts a text under a name in place of an older one. Where it runs out of memory
    /// the files stay as they were.
    pub fn hold(&mut self, name: &str, octets: &[u8]) -> Result<(), NoMemory>
        ensures held { OnOk result (sure_text self.new name.now ≡ Some octets.now) }
        ensures elsewhere { SameElsewhere name.now (sure_text self.old) (sure_text self.new) }
        ensures refused { OnErr result (SameTexts (sure_text self.old) (sure_text self.new)) }
    {
        hold_text(self.alloc, &mut self.held, name, octets)
    }

    /// The text under a name, None exactly where none is held. It takes no memory.
    pub fn held(&self, name: &str) -> Option<&[u8]>
        ensures { option_copied result ≡ sure_text self.now name.now }
    {
        match self.held.get(name) {
            Some(text) => Some(text.as_slice()),
            None => None,
        }
    }
}

impl Files for SureFiles {
    ghost use Rattle.esi_links.specs.Held.{sure_text, sure_told, sure_file, no_faults, count_at};

    ghost text = { sure_told };

    ghost unreadable = { λ _ _. false };

    ghost log = { λ _. None };

    ghost read_faults = { no_faults };

    ghost write_faults = { no_faults };

    /// It never fails, takes no memory, and gives an empty file where no text is held.
    fn read(&mut self, name: &str, at: u64, into: &mut [u8]) -> Result<usize, OutStop>
        requires piece { 0 < length into.old }
        requires reach { at ≤ LONGEST_TEXT }
        ensures bound { IfOk result (λ n. n ≤ length into.new) }
        ensures octets { IfOk result (λ n. PieceAt (sure_told self.old name.now) at (take n into.new)) }
        ensures texts { SameTexts (sure_told self.old) (sure_told self.new) }
        ensures kept { OnErr result (into.new ≡ into.old) }
        ensures quiet_reads { OnOk result (SameCounts (no_faults self.old) (no_faults self.new)) }
        ensures quiet_writes { OnOk result (SameCounts (no_faults self.old) (no_faults self.new)) }
        ensures cause { HasCauseAt (no_faults self.old) (no_faults self.new) name.now result }
        ensures writes { NoneFell (no_faults self.old) (no_faults self.new) }
        ensures no_memory_reads { IsErrOf result OutStop.NoMemory → SameCounts (no_faults self.old) (no_faults self.new) }
        ensures no_memory_writes { IsErrOf result OutStop.NoMemory → SameCounts (no_faults self.old) (no_faults self.new) }
        ensures answer { result ≡ Ok (count_at (sure_file self.old name.now) at (length into.old)) }
        ensures held { SameTexts (sure_text self.old) (sure_text self.new) }
    {
        match self.held.get(name) {
            Some(text) => Ok(copy_piece(text.as_slice(), at, into)),
            None => Ok(0),
        }
    }

    /// It fails only when it runs out of memory.
    fn write(&mut self, name: &str, octets: &[u8]) -> Result<(), OutStop>
        ensures written { OnOk result (IfSome (sure_told self.new name.now) (λ text. text ≡ octets.now)) }
        ensures told { IfSome (sure_told self.old name.now) (λ _. IsSome (sure_told self.new name.now)) }
        ensures quiet_reads { OnOk result (SameCounts (no_faults self.old) (no_faults self.new)) }
        ensures quiet_writes { OnOk result (SameCounts (no_faults self.old) (no_faults self.new)) }
        ensures elsewhere { SameElsewhere name.now (sure_told self.old) (sure_told self.new) }
        ensures cause { HasCauseAt (no_faults self.old) (no_faults self.new) name.now result }
        ensures reads { NoneFell (no_faults self.old) (no_faults self.new) }
        ensures no_memory_texts { IsErrOf result OutStop.NoMemory → SameTexts (sure_told self.old) (sure_told self.new) }
        ensures no_memory_reads { IsErrOf result OutStop.NoMemory → SameCounts (no_faults self.old) (no_faults self.new) }
        ensures no_memory_writes { IsErrOf result OutStop.NoMemory → SameCounts (no_faults self.old) (no_faults self.new) }
        ensures sure { IsErrOf result OutStop.Fault → ⊥ }
        ensures held { OnOk result (sure_text self.new name.now ≡ Some octets.now) }
        ensures held_elsewhere { SameElsewhere name.now (sure_text self.old) (sure_text self.new) }
        ensures refused { OnErr result (SameTexts (sure_text self.old) (sure_text self.new)) }
    {
        Ok(hold_text(self.alloc, &mut self.held, name, octets)?)
    }
}

/// The counts of faults of such files are 0, under every name.
pub fn sure_files_law(files: &SureFiles)
    ensures reads { (name : List ℕ) → ⟦<SureFiles as Files>⟧.read_faults files.now name ≡ 0 }
    ensures writes { (name : List ℕ) → ⟦<SureFiles as Files>⟧.write_faults files.now name ≡ 0 }
{}
