//! Frame types (RFC 9113, section 6).
ghost use Rattle.std.specs.Prelude.{◌≡◌};
ghost use Rattle.h2_layouts.specs.FrameTypes.{number_of, type_of};

/// The type of a frame.
#[derive(Clone, Copy, Debug, PartialEq, Eq)]
pub enum FrameType {
    /// DATA, type 0: octets of a stream (section 6.1).
    Data,
    /// HEADERS, type 1: a header block, or a prefix of it, which may open a stream (section 6.2).
    Headers,
    /// PRIORITY, type 2: no longer used (section 6.3).
    Priority,
    /// RST_STREAM, type 3: a stream ends at once (section 6.4).
    RstStream,
    /// SETTINGS, type 4: values that the sender keeps to, or word that such values were taken over
    /// (section 6.5).
    Settings,
    /// PUSH_PROMISE, type 5: a stream that the server will open; nobody here allows it (section 6.6).
    PushPromise,
    /// PING, type 6: eight octets that come back (section 6.7).
    Ping,
    /// GOAWAY, type 7: the sender opens no more, or the connection ends (section 6.8).
    GoAway,
    /// WINDOW_UPDATE, type 8: a window grows (section 6.9).
    WindowUpdate,
    /// CONTINUATION, type 9: more of a header block (section 6.10).
    Continuation,
    /// A type that the RFC has not: such frames are read past (section 4.1).
    Unknown(u8),
}

impl FrameType {
    /// The type with a number.
    pub fn of(number: u8) -> FrameType
        ensures { result ≡ type_of number }
    {
        match number {
            0 => FrameType::Data,
            1 => FrameType::Headers,
            2 => FrameType::Priority,
            3 => FrameType::RstStream,
            4 => FrameType::Settings,
            5 => FrameType::PushPromise,
            6 => FrameType::Ping,
            7 => FrameType::GoAway,
            8 => FrameType::WindowUpdate,
            9 => FrameType::Continuation,
            _ => FrameType::Unknown(number),
        }
    }

    /// The type's number.
    pub fn number(self) -> u8
        ensures { result ≡ number_of self }
    {
        match self {
            FrameType::Data => 0,
            FrameType::Headers => 1,
            FrameType::Priority => 2,
            FrameType::RstStream => 3,
            FrameType::Settings => 4,
            FrameType::PushPromise => 5,
            FrameType::Ping => 6,
            FrameType::GoAway => 7,
            FrameType::WindowUpdate => 8,
            FrameType::Continuation => 9,
            FrameType::Unknown(number) => number,
        }
    }
}
