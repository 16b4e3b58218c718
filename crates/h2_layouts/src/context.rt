//! Where a frame stands in what a peer writes, and the rules that its header keeps there.
ghost use Rattle.std.specs.Prelude.{◌≡◌};
ghost use Rattle.h2_layouts.specs.Rules.{broken_header};
ghost use Rattle.h2_layouts.specs.Contexts.{new_context, context_after};

use crate::frame::Frame;
use crate::header::FrameHeader;
use crate::limit::LONGEST_PAYLOAD;
use crate::role::Role;
use crate::rule::FrameRule;

/// Where a frame stands.
#[derive(Clone, Copy, Debug, PartialEq, Eq)]
pub struct FrameContext {
    /// Which end reads it.
    pub role: Role,
    /// Whether it is the first frame.
    pub first: bool,
    /// The stream whose header block is not whole.
    pub block: Option<u32>,
}

impl FrameContext {
    /// Where the first frame stands.
    pub fn new(role: Role) -> FrameContext
        ensures { result ≡ new_context role }
    {
        FrameContext {
            role,
            first: true,
            block: None,
        }
    }

    /// The first rule that a frame's header breaks here (RFC 9113, sections 4.2, 3.4, 6.2, 6.10).
    pub fn broken_rule(self, header: FrameHeader) -> Option<FrameRule>
        ensures { result ≡ broken_header self header }
    {
        if header.length > LONGEST_PAYLOAD {
            return Some(FrameRule::FrameSize);
        }
        if self.first && !header.begins_settings() {
            return Some(FrameRule::FirstSettings);
        }
        match self.block {
            Some(stream) if !header.continues(stream) => Some(FrameRule::OpenBlock),
            None if header.is_continuation() => Some(FrameRule::NoBlock),
            _ => None,
        }
    }

    /// Where the next frame stands, after this one.
    pub fn after(self, frame: &Frame) -> FrameContext
        ensures { result ≡ context_after self frame.now }
    {
        let block = match frame {
            Frame::Head {
                stream,
                last: false,
                ..
            }
            | Frame::Continued {
                stream,
                last: false,
                ..
            } => Some(*stream),
            _ => None,
        };
        FrameContext {
            role: self.role,
            first: false,
            block,
        }
    }
}
