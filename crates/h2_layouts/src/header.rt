//! Frame headers (RFC 9113, section 4.1).
ghost use Rattle.std.specs.Prelude.{◌≡◌};
ghost use Rattle.h2_layouts.specs.Numbers.{has as has_flag};
ghost use Rattle.h2_layouts.specs.Headers.{header_of, begins_settings, continues, is_continuation};

use crate::flag::ACK;
use crate::frame_type::FrameType;
use crate::limit::STREAMS;

/// How many octets a frame's header has.
pub const HEADER_OCTETS: usize = 9;

const _: () = prove!(HEADER_OCTETS == 9);

/// What the nine octets before a frame's payload say.
#[derive(Clone, Copy, Debug, PartialEq, Eq)]
pub struct FrameHeader {
    /// How many octets the payload has, below 2^24.
    pub length: u32,
    /// The frame's type.
    pub kind: FrameType,
    /// The frame's flags, by their masks.
    pub flags: u8,
    /// The stream, below 2^31; 0 is the connection.
    pub stream: u32,
}

impl FrameHeader {
    /// The header that nine octets are. The bit before the stream is reserved, and ignored.
    pub fn of(octets: [u8; 9]) -> FrameHeader
        ensures { result ≡ header_of octets }
    {
        let [a, b, c, number, flags, s, t, u, v] = octets;
        FrameHeader {
            length: u32::from_be_bytes([0, a, b, c]),
            kind: FrameType::of(number),
            flags,
            stream: u32::from_be_bytes([s, t, u, v]) % STREAMS,
        }
    }

    /// Whether the frame has the flag with this mask.
    pub fn has(self, mask: u8) -> bool
        ensures { result ≡ has_flag self.flags mask }
    {
        self.flags & mask != 0
    }

    /// Whether it is the header of SETTINGS without ACK.
    pub fn begins_settings(self) -> bool
        ensures { result ≡ begins_settings self }
    {
        matches!(self.kind, FrameType::Settings) && !self.has(ACK)
    }

    /// Whether it is the header of CONTINUATION.
    pub fn is_continuation(self) -> bool
        ensures { result ≡ is_continuation self.kind }
    {
        matches!(self.kind, FrameType::Continuation)
    }

    /// Whether it is the header of CONTINUATION on this stream.
    pub fn continues(self, stream: u32) -> bool
        ensures { result ≡ continues stream self }
    {
        self.is_continuation() && self.stream == stream
    }
}
