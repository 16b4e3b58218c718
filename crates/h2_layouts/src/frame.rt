//! Frames (RFC 9113, section 6), without padding and priority.

use crate::setting::Setting;
use esi_base::{List, Octets};

/// A frame.
#[derive(Debug, Drop)]
pub enum Frame {
    /// DATA (section 6.1).
    Content {
        /// The stream.
        stream: u32,
        /// Whether it is the last frame of its sender on the stream (END_STREAM).
        end: bool,
        /// The octets, without padding.
        octets: Octets,
        /// How many octets count for flow control: those of the whole payload, padding and all.
        flow: u32,
    },
    /// HEADERS (section 6.2).
    Head {
        /// The stream.
        stream: u32,
        /// Whether the block is the last thing of its sender on the stream (END_STREAM).
        end: bool,
        /// Whether the header block is whole with this frame (END_HEADERS).
        last: bool,
        /// The header block, or a prefix of it, without padding and priority.
        octets: Octets,
    },
    /// PRIORITY (section 6.3), which says nothing any more.
    Priority {
        /// The stream.
        stream: u32,
    },
    /// RST_STREAM (section 6.4).
    Reset {
        /// The stream.
        stream: u32,
        /// The error code.
        code: u32,
    },
    /// SETTINGS without ACK (section 6.5).
    Settings {
        /// The settings, in order.
        pairs: List<Setting>,
    },
    /// SETTINGS with ACK (section 6.5).
    SettingsAck,
    /// PING (section 6.7).
    Ping {
        /// Whether it is an answer (ACK).
        ack: bool,
        /// The opaque data.
        octets: [u8; 8],
    },
    /// GOAWAY (section 6.8), without its debug data.
    GoAway {
        /// The last stream that its sender may have acted on.
        last: u32,
        /// The error code.
        code: u32,
    },
    /// WINDOW_UPDATE (section 6.9).
    Update {
        /// The stream, or 0 for the connection.
        stream: u32,
        /// By how many octets the window grows.
        increment: u32,
    },
    /// CONTINUATION (section 6.10).
    Continued {
        /// The stream.
        stream: u32,
        /// Whether the header block is whole with this frame (END_HEADERS).
        last: bool,
        /// More of the header block.
        octets: Octets,
    },
    /// A frame of a type that the RFC has not (section 4.1).
    Unknown {
        /// The type's number, above 9.
        kind: u8,
    },
}
