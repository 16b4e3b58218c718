//! What happens on a connection that concerns the calls on it.

use esi_base::Octets;
use hpack::Headers;

/// What a connection reports.
#[derive(Debug, Drop)]
pub enum CallEvent {
    /// A header list came: the first one of a stream, or its trailers.
    Head {
        /// The stream.
        stream: u32,
        /// The header list, well formed.
        headers: Headers,
        /// Whether the peer has ended the stream with it.
        end: bool,
    },
    /// DATA came.
    Part {
        /// The stream.
        stream: u32,
        /// The octets, without padding.
        octets: Octets,
        /// How many octets it took of the windows: `give_back` asks for them.
        flow: u32,
        /// Whether the peer has ended the stream with it.
        end: bool,
    },
    /// A stream was reset: by the peer, or by this end since the peer broke a rule of the stream.
    Reset {
        /// The stream.
        stream: u32,
        /// The error code.
        code: u32,
    },
    /// The connection has ended with an error, and no stream of it is open any more.
    Broken {
        /// The error code.
        code: u32,
    },
}
