//! The steps of a log that are to come.
ghost use Rattle.std.specs.Prelude.{◌≡◌, ◌∷◌, ◌++◌, [], drop, slice_get, OnOk, OnErr};

use esi_base::{List, NoMemory};
use link_log::LogStep;
use std::marker::Model;

/// The steps that are to come. Contracts see the list of them.
#[derive(Debug, Drop)]
pub struct StepQueue {
    steps: List<LogStep>,
    given: usize,
}

impl Model for StepQueue {
    ghost use Rattle.std.specs.Prelude.{List as Listed, drop, length, ◌≤◌};
    ghost use Rattle.link_log.specs.declared.step.LogStep.{LogStep as Step};

    ghost Value = { Listed Step };

    ghost view = { λ q. drop q.given q.steps };

    ghost invariant = { λ q. q.given ≤ length q.steps };
}

impl StepQueue {
    /// These steps are to come. It takes no memory.
    pub(crate) fn new(steps: List<LogStep>) -> StepQueue
        ensures { result ≡ steps }
    {
        StepQueue { steps, given: 0 }
    }

    /// The steps that are to come.
    pub(crate) fn left(&self) -> &[LogStep]
        ensures { result.now ≡ self.now }
    {
        &self.steps.as_slice()[self.given..]
    }

    /// Takes the first step, None where none is left.
    pub(crate) fn pop(&mut self) -> Option<LogStep>
        ensures first { result ≡ slice_get self.old 0 }
        ensures left { self.new ≡ drop 1 self.old }
    {
        if self.given >= self.steps.len() {
            return None;
        }
        let step = self.steps.set(self.given, LogStep::Idle);
        self.given += 1;
        Some(step)
    }

    /// Adds a step behind the last one.
    pub(crate) fn add(&mut self, step: LogStep) -> Result<(), NoMemory>
        ensures added { OnOk result (self.new ≡ self.old ++ step ∷ []) }
        ensures unchanged { OnErr result (self.new ≡ self.old) }
    {
        self.steps.add(step)
    }
}
