//! The frames of a connection, whose octets arrive in pieces.
ghost use Rattle.std.specs.Prelude.{◌≡◌, ◌↔◌, ◌⊎◌, ◌+◌, ◌≤◌, ℕ, length, take, drop, IfOk, OnOk, OnErr};
ghost use Rattle.h2_layouts.specs.PayloadReading.{frame_of};
ghost use Rattle.h2_layouts.specs.declared.frame.Frame.{Frame as AnyFrame};
ghost use Rattle.h2_frames.specs.Reading.{Reading, new_reading, fed_with, next_of, Answers, Takes, IfFrame, OnNoFrame, IsFaultWith, IsNoMemory, IsPending, IsHandedOut};
ghost use Rattle.h2_frames.specs.Streams.{HandsOut, IsFault, IsUnfinished};

use crate::front::{Front, front_of};
use esi_base::{NoMemory, OctetQueue, Poll};
use h2_layouts::{Frame, FrameContext, FrameHeader, PayloadStop, Role, read_payload};
use std::alloc::Global;
use std::marker::Model;

/// Why no frame is given.
#[derive(Clone, Copy, Debug, PartialEq, Eq)]
pub enum FrameStop {
    /// A rule is broken: the connection ends with this error code (RFC 9113, section 5.4.1).
    Fault {
        /// The error code.
        code: u32,
    },
    /// Out of memory.
    NoMemory,
}

/// Reads the frames of a connection, whose octets it is fed piece by piece. Contracts see where the next
/// frame stands, and the octets that were fed and not yet given.
#[derive(Drop)]
pub struct FrameReader {
    alloc: Global,
    context: FrameContext,
    unread: OctetQueue,
}

impl Model for FrameReader {
    ghost use Rattle.h2_frames.specs.Reading.{Reading};

    ghost Value = { Reading };

    ghost view = { λ r. record { context = r.context; unread = r.unread } };
}

impl FrameReader {
    /// A reader that was fed nothing, for one end of a connection.
    pub fn new(alloc: Global, role: Role) -> Result<FrameReader, NoMemory>
        ensures { IfOk result (λ reader. reader ≡ new_reading role) }
    {
        Ok(FrameReader {
            alloc,
            context: FrameContext::new(role),
            unread: OctetQueue::new(alloc),
        })
    }

    /// Takes the next octets of the connection. It fails only when it runs out of memory, and then the
    /// reader is as before. The time that all calls take is linear in the octets, whatever the pieces.
    pub fn feed(&mut self, octets: &[u8]) -> Result<(), NoMemory>
        ensures fed { OnOk result (self.new ≡ fed_with octets.now self.old) }
        ensures unchanged { OnErr result (self.new ≡ self.old) }
    {
        self.unread.push_all(octets)
    }

    /// The next frame of the connection, without padding and priority. The rules of a frame's header
    /// are checked as soon as its nine octets stand, those of its payload when it stands whole; the first
    /// that is broken is reported by its code, and each later call reports it again. Pending comes
    /// exactly where the octets that were fed begin no whole frame and break no rule. When memory runs
    /// out the frame stays, and the next call gives it.
    pub fn poll_frame(&mut self) -> Poll<Result<Frame, FrameStop>>
        // It gives exactly the frame that stands first, and what is after it is left.
        ensures frame { IfFrame result (λ frame. HandsOut self.old frame self.new) }
        ensures frame_only { (frame : AnyFrame) (following : Reading) → HandsOut self.old frame following
            → IsHandedOut frame following result self.new }

        // It reports exactly the code of the first rule that is broken.
        ensures fault { (code : ℕ) → IsFaultWith code result → IsFault self.old code }
        ensures fault_only { (code : ℕ) → IsFault self.old code
            → IsFaultWith code result ⊎ IsNoMemory result }

        ensures pending { IsPending result ↔ IsUnfinished self.old }
        ensures unchanged { OnNoFrame result (self.new ≡ self.old) }

        // The answer is what is computed of the octets.
        ensures exact { Answers result self.old self.new (next_of self.old) }
    {
        self.next_frame()
    }

    /// The same, by the tests in their order.
    fn next_frame(&mut self) -> Poll<Result<Frame, FrameStop>>
        ensures { Answers result self.old self.new (next_of self.old) }
    {
        match front_of(self.context, self.unread.as_slice()) {
            Front::Unfinished => Poll::Pending,
            Front::Broken(rule) => Poll::Ready(Err(FrameStop::Fault { code: rule.code() })),
            Front::Whole { header, from } => Poll::Ready(self.take_frame(header, from)),
        }
    }

    /// Takes the frame that stands first, whole, with this header and after so many octets.
    #[tactic(auto, using(crate::specs::Reading::payload_comes))]
    fn take_frame(&mut self, header: FrameHeader, from: usize) -> Result<Frame, FrameStop>
        requires { from + header.length ≤ length self.old.unread }
        ensures { Takes result self.old self.new (from + header.length)
            (frame_of self.old.context.role header (take header.length (drop from self.old.unread))) }
    {
        let count = header.length as usize;
        let after_header = &self.unread.as_slice()[from..];
        match read_payload(
            self.alloc,
            self.context.role,
            header,
            &after_header[..count],
        ) {
            Ok(frame) => {
                self.context = self.context.after(&frame);
                self.unread.skip(from + count);
                Ok(frame)
            }
            Err(PayloadStop::Refused(rule)) => Err(FrameStop::Fault { code: rule.code() }),
            Err(PayloadStop::NoMemory) => Err(FrameStop::NoMemory),
        }
    }
}
