//! What a schedule is.
ghost use Rattle.std.specs.Prelude.{◌≡◌};

use esi_base::List;

/// What the two ends of a session do, move by move.
#[derive(Debug, Drop)]
pub struct Schedule {
    /// The moves, one for each line that counts, in order.
    pub steps: List<Move>,
}

/// A move of a schedule.
#[derive(Clone, Copy, Debug, Drop)]
pub enum Move {
    /// `client`: the client takes its turns.
    Client,
    /// `server`: the server takes its turns.
    Server,
    /// `up N`: the first N octets that the client sent move to the server's side.
    Up { octets: u64 },
    /// `down N`: the first N octets that the server sent move to the client's side.
    Down { octets: u64 },
    /// `round N`: N times `client`, all octets up, `server`, all octets down.
    Round { count: u32 },
}

impl Move {
    ghost use Rattle.schedule_text.specs.ScheduleLines.{rounds_of};

    /// How many rounds the move asks for.
    pub fn rounds(&self) -> u32
        ensures { result ≡ rounds_of self.now }
    {
        match self {
            Move::Client | Move::Server | Move::Up { .. } | Move::Down { .. } => 0,
            Move::Round { count } => *count,
        }
    }
}
