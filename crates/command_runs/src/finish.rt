//! What a command's work comes to, and what is printed after it.
ghost use Rattle.std.specs.Prelude.{◌≡◌};

use endpoint_hub::Report;
use esi_base::Octets;
use std::alloc::Global;

/// What a command's work comes to, where no text is refused and no call of the outside failed.
#[derive(Debug, Drop)]
pub enum End {
    /// All is done. Status 0.
    Done,
    /// A log has a failed call on links. Status 5.
    LinkFault,
    /// The peer broke its protocol, with this code. Status 6.
    PeerFault { code: u32 },
    /// The peer answered a call of this channel with a status that was not expected. Status 6.
    PeerStatus { name: Octets, status: u8 },
    /// So many calls and values were still expected. Status 7.
    Unfinished { count: u64 },
    /// So many turns were spent. Status 9.
    TurnsSpent { count: u32 },
}

/// What a command's work comes to, and what is reported and printed of it.
#[derive(Debug, Drop)]
pub struct Finish {
    /// What it comes to.
    pub end: End,
    /// What a served session reports at its end.
    pub report: Option<Report>,
    /// Whether the report is given also where status 4 takes the place of the end, since the closing
    /// lines could not be printed whole.
    pub keeps_report: bool,
    /// The lines that are printed after the end.
    pub closing: Octets,
}

impl Finish {
    ghost use Rattle.command_runs.specs.Work.{all_done};

    /// All is done, and nothing is reported or printed of it. It takes no memory.
    pub fn done(alloc: Global) -> Finish
        ensures { result ≡ all_done }
    {
        Finish {
            end: End::Done,
            report: None,
            keeps_report: false,
            closing: Octets::new(alloc),
        }
    }
}
