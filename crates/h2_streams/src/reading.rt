//! Reading, turn by turn.
ghost use Rattle.std.specs.Prelude.{IfOk};
ghost use Rattle.h2_streams.specs.Polling.{Turns, Polls, Runs};

use crate::conn::Conn;
use esi_base::{NoMemory, Poll};
use h2_frames::FrameStop;
use h2_history::CallEvent;

/// What one turn of reading came to.
#[derive(Debug, Drop)]
pub(crate) enum Turn {
    /// Nothing further stands in the octets that were fed.
    Rests,
    /// A frame was read of which nothing is reported.
    Goes,
    /// This is reported.
    Reports(CallEvent),
}

impl Conn {
    /// What happens next on the connection, as far as it stands in the octets that were fed; Pending
    /// exactly where nothing further does. What the frames ask for that were read is in the output: the
    /// answers to SETTINGS and PING, RST_STREAM for what breaks a rule of a stream, GOAWAY for what
    /// breaks one of the connection, and octets of DATA given back from which nothing comes. A
    /// connection that has ended with an error reports it each time. Out of memory is reported each time from
    /// then on.
    pub fn poll_call(&mut self) -> Poll<Result<CallEvent, NoMemory>>
        ensures { Polls self.old result self.new }
    {
        if self.failed {
            return Poll::Ready(Err(NoMemory));
        }
        let answer = self.run();
        if matches!(answer, Poll::Ready(Err(NoMemory))) {
            self.failed = true;
        }
        answer
    }

    /// Turns, until one rests or reports something.
    fn run(&mut self) -> Poll<Result<CallEvent, NoMemory>>
        ensures { Runs self.old result self.new }
    {
        'turns: loop {
            match self.turn() {
                Err(NoMemory) => return Poll::Ready(Err(NoMemory)),
                Ok(Turn::Rests) => return Poll::Pending,
                Ok(Turn::Goes) => {}
                Ok(Turn::Reports(event)) => return Poll::Ready(Ok(event)),
            }
        }
    }

    /// One turn: the frame that stands next.
    fn turn(&mut self) -> Result<Turn, NoMemory>
        ensures { IfOk result (λ turn. Turns self.old turn self.new) }
    {
        if let Some(code) = self.broken {
            return Ok(Turn::Reports(CallEvent::Broken { code }));
        }
        match self.reader.poll_frame() {
            Poll::Pending => Ok(Turn::Rests),
            Poll::Ready(Err(FrameStop::NoMemory)) => Err(NoMemory),
            Poll::Ready(Err(FrameStop::Fault { code })) => {
                self.break_with(code);
                Ok(Turn::Goes)
            }
            Poll::Ready(Ok(frame)) => match self.read_frame(frame)? {
                None => Ok(Turn::Goes),
                Some(event) => Ok(Turn::Reports(event)),
            },
        }
    }
}
