//! How a command ends, before its status's line is written.
ghost use Rattle.std.specs.Prelude.{◌≡◌};

use crate::{Cause, End, FileRefusal, Finish};
use endpoint_hub::Report;

/// How a command ends.
#[derive(Debug, Drop)]
pub enum Ending {
    /// The words match no command.
    Usage,
    /// A text is refused.
    Refused(FileRefusal),
    /// A file could not be read.
    ReadFault,
    /// A file, or what is printed, could not be written.
    WriteFault,
    /// Out of memory.
    NoMemory,
    /// The work came to its end.
    Ended(End),
}

impl Ending {
    ghost use Rattle.command_runs.specs.Statuses.{status_of, cause_of};

    /// The status.
    pub fn status(&self) -> u8
        ensures { result ≡ status_of self.now }
    {
        match self {
            Ending::Ended(End::Done) => 0,
            Ending::Usage => 1,
            Ending::Refused(_) => 2,
            Ending::ReadFault => 3,
            Ending::WriteFault => 4,
            Ending::Ended(End::LinkFault) => 5,
            Ending::Ended(End::PeerFault { .. } | End::PeerStatus { .. }) => 6,
            Ending::Ended(End::Unfinished { .. }) => 7,
            Ending::NoMemory => 8,
            Ending::Ended(End::TurnsSpent { .. }) => 9,
        }
    }

    /// What the status's line says beside the status.
    pub fn cause(self) -> Cause
        ensures { result ≡ cause_of self }
    {
        match self {
            Ending::Refused(file_refusal) => Cause::Refused {
                word: file_refusal.word,
                refusal: file_refusal.refusal,
            },
            Ending::Ended(End::PeerFault { code }) => Cause::PeerFault { code },
            Ending::Ended(End::PeerStatus { name, status }) => Cause::PeerStatus { name, status },
            Ending::Ended(End::Unfinished { count }) => Cause::Unfinished { count },
            Ending::Ended(End::TurnsSpent { count }) => Cause::Turns { count },
            Ending::Ended(End::Done | End::LinkFault)
            | Ending::Usage
            | Ending::ReadFault
            | Ending::WriteFault
            | Ending::NoMemory => Cause::Plain,
        }
    }
}

/// How a command ends, and its report.
#[derive(Debug, Drop)]
pub struct Conclusion {
    /// How it ends.
    pub ending: Ending,
    /// What a served session reports at its end.
    pub report: Option<Report>,
}

impl Conclusion {
    ghost use Rattle.command_runs.specs.Conclusions.{without_report_of, conclusion_of};

    /// An ending without a report.
    pub fn without_report(ending: Ending) -> Conclusion
        ensures { result ≡ without_report_of ending }
    {
        Conclusion {
            ending,
            report: None,
        }
    }

    /// The end of a work.
    pub fn of(finish: Finish) -> Conclusion
        ensures { result ≡ conclusion_of finish }
    {
        Conclusion {
            ending: Ending::Ended(finish.end),
            report: finish.report,
        }
    }
}
