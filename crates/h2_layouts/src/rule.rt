//! The rules of frames: each one's sentence, its section of RFC 9113, and its error code.
ghost use Rattle.std.specs.Prelude.{◌≡◌};
ghost use Rattle.h2_layouts.specs.Rules.{code_of};

use crate::code::{FLOW_CONTROL_ERROR, FRAME_SIZE_ERROR, PROTOCOL_ERROR};

/// A rule of frames. Each that is broken ends the connection.
#[derive(Clone, Copy, Debug, PartialEq, Eq)]
pub enum FrameRule {
    /// What a client writes begins with the connection preface (section 3.4).
    Preface,
    /// A frame's payload has at most 16,384 octets (section 4.2).
    FrameSize,
    /// The first frame is SETTINGS without ACK (section 3.4).
    FirstSettings,
    /// Inside a header block comes nothing but CONTINUATION of its stream (section 6.2).
    OpenBlock,
    /// Outside a header block comes no CONTINUATION (section 6.10).
    NoBlock,
    /// DATA, HEADERS, PRIORITY and RST_STREAM are on a stream (sections 6.1 to 6.4).
    OnStream,
    /// SETTINGS, PING and GOAWAY are on the connection, stream 0 (sections 6.5, 6.7, 6.8).
    OnConnection,
    /// DATA with PADDED has a Pad Length octet (section 6.1).
    DataPadLength,
    /// The padding of DATA is less than its payload (section 6.1).
    DataPadding,
    /// HEADERS has the octets that its flags ask for: one of PADDED, five of PRIORITY (section 6.2).
    HeadersLength,
    /// The padding of HEADERS is at most what stands after these octets (section 6.2).
    HeadersPadding,
    /// PRIORITY has 5 octets (section 6.3).
    PriorityLength,
    /// RST_STREAM has 4 octets (section 6.4).
    RstStreamLength,
    /// SETTINGS with ACK has no octets (section 6.5).
    AckPayload,
    /// SETTINGS has 6 octets for each setting (section 6.5).
    SettingsLength,
    /// ENABLE_PUSH is 0 or 1, and a server sends no 1 (section 6.5.2).
    EnablePush,
    /// INITIAL_WINDOW_SIZE is at most 2^31 - 1 (section 6.5.2).
    InitialWindowSize,
    /// MAX_FRAME_SIZE is 16,384 to 16,777,215 (section 6.5.2).
    MaxFrameSize,
    /// No PUSH_PROMISE comes, since this end allows none (sections 6.6 and 8.4).
    PushPromise,
    /// PING has 8 octets (section 6.7).
    PingLength,
    /// GOAWAY has 8 octets or more (section 6.8).
    GoAwayLength,
    /// WINDOW_UPDATE has 4 octets (section 6.9).
    WindowUpdateLength,
    /// The connection's window grows by 1 octet or more (section 6.9).
    Increment,
}

impl FrameRule {
    /// The error code with which the connection ends where the rule is broken.
    pub fn code(self) -> u32
        ensures { result ≡ code_of self }
    {
        match self {
            FrameRule::FrameSize
            | FrameRule::DataPadLength
            | FrameRule::HeadersLength
            | FrameRule::PriorityLength
            | FrameRule::RstStreamLength
            | FrameRule::AckPayload
            | FrameRule::SettingsLength
            | FrameRule::PingLength
            | FrameRule::GoAwayLength
            | FrameRule::WindowUpdateLength => FRAME_SIZE_ERROR,
            FrameRule::InitialWindowSize => FLOW_CONTROL_ERROR,
            FrameRule::Preface
            | FrameRule::FirstSettings
            | FrameRule::OpenBlock
            | FrameRule::NoBlock
            | FrameRule::OnStream
            | FrameRule::OnConnection
            | FrameRule::DataPadding
            | FrameRule::HeadersPadding
            | FrameRule::EnablePush
            | FrameRule::MaxFrameSize
            | FrameRule::PushPromise
            | FrameRule::Increment => PROTOCOL_ERROR,
        }
    }
}
