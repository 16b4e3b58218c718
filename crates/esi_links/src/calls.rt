//! Calls that are counted, some of which are to fail.
ghost use Rattle.std.specs.Prelude.{◌≡◌, ◌≤◌};

use esi_base::List;

/// The calls of one kind that an object in memory counts, and those of them that are to fail. Both
/// counts stand still at their last value, 2^64 - 1.
#[derive(Debug, Drop)]
pub struct Calls {
    /// The numbers, from 0, of the calls that are to fail.
    pub failing: List<u64>,
    /// How many calls were made: the number of the next one.
    pub made: u64,
    /// How many calls failed.
    pub faults: u64,
}

impl Calls {
    ghost use Rattle.esi_links.specs.FailingCalls.{new_calls, is_due, after_pass, after_fault};

    /// No call was made yet, and those with these numbers are to fail.
    pub fn new(failing: List<u64>) -> Calls
        ensures { result ≡ new_calls failing }
    {
        Calls {
            failing,
            made: 0,
            faults: 0,
        }
    }

    /// Whether the next call is to fail.
    pub fn is_due(&self) -> bool
        ensures { result ≡ is_due self.now }
    {
        self.failing.as_slice().contains(&self.made)
    }

    /// Counts a call that was done.
    pub fn pass(&mut self)
        ensures { self.new ≡ after_pass self.old }
    {
        self.made = self.made.saturating_add(1);
    }

    /// Counts a call that failed.
    pub fn fail(&mut self)
        ensures counted { self.new ≡ after_fault self.old }
        ensures later { self.old.faults ≤ self.new.faults }
    {
        self.made = self.made.saturating_add(1);
        self.faults = self.faults.saturating_add(1);
    }
}
