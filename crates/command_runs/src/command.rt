//! What a command is.
ghost use Rattle.std.specs.Prelude.{◌≡◌, ℕ, ◌≤◌, length, List as Listed};
ghost use Rattle.esi_base.specs.Answers.{AnswersAs};
ghost use Rattle.esi_base.specs.declared.limits.TheConstants.{LONGEST_TEXT};
ghost use Rattle.command_runs.specs.Account.{Account, StaysWithin, AllWithin, cut_texts, effects_of};

use crate::{FileText, Printer, WorkStop};
use esi_base::{List, Octets};
use std::alloc::Global;

/// The output of a work that refuses no text: the files to write, in order, and the lines to print.
#[derive(Drop)]
pub struct Output<L> {
    pub written: List<FileText>,
    pub lines: L,
}

/// A command that turns files into text. Its account says what it is; a value may hold the numbers
/// that stand among its words.
pub trait Command {
    /// What it prints.
    type Lines: Printer;

    /// What the command is.
    ghost account: { Self → Account };

    /// How many words stand after the command's own.
    fn words(&self) -> usize
        ensures { result ≡ (account self.now).words };

    /// The longest text of each file that is read, in octets, in the order of the words.
    fn limits(&self) -> &[usize]
        ensures limits { result.now ≡ (account self.now).limits }
        ensures few { length result.now ≤ (account self.now).words }
        ensures reach { AllWithin LONGEST_TEXT result.now };

    /// What the command makes of the texts of its files, each read up to one octet above its limit.
    fn work(&self, alloc: Global, texts: &[Octets]) -> Result<Output<Self::Lines>, WorkStop>
        requires { length texts.now ≡ length (account self.now).limits }
        ensures makes { AnswersAs (effects_of Self.Lines.left Self.Lines.finish) ((account self.now).meaning texts.now) result }
        ensures within { StaysWithin (account self.now) Self.Lines.finish result };

    /// What stands more than one octet above the limit of a file changes nothing.
    ghost cut: { (command : Self) (texts : Listed (Listed ℕ))
        → (account command).meaning (cut_texts (account command).limits texts) ≡ (account command).meaning texts };

    /// What is promised holds.
    ghost promised: { (command : Self) (texts : Listed (Listed ℕ))
        → (account command).promise texts ((account command).meaning texts) };
}
