//! The windows of one open stream, and its index among them.
ghost use Rattle.std.specs.Prelude.{◌≡◌, pos, ◌+ℤ◌, ◌-ℤ◌, ◌≤◌, ◌≤ℤ◌, IfNone, IfSome};
ghost use Rattle.h2_flow.specs.KeyedRows.{IsAbsent, IsIndexOf};
ghost use Rattle.h2_flow.specs.Streams.{send_window_of, octets_of, is_too_great, stream_of};

use crate::limits::GREATEST_WINDOW;

/// The windows of an open stream.
#[derive(Clone, Copy, Debug, PartialEq, Eq)]
pub struct StreamWindows {
    /// The stream's identifier.
    pub stream: u32,
    /// The octets of the peer's increments for the stream, less those of DATA sent on it. Added to the
    /// peer's setting INITIAL_WINDOW_SIZE, this is the stream's window to send.
    pub credit: i32,
    /// The stream's window to receive, in octets.
    pub receive: u32,
}

impl StreamWindows {
    /// The window to send, in octets, where the peer's setting is `initial`. It is negative where more
    /// was sent than the setting and the increments give: the peer has made the setting smaller.
    pub(crate) fn send_window(&self, initial: u32) -> i64
        ensures { result ≡ send_window_of initial self.now }
    {
        i64::from(initial) + i64::from(self.credit)
    }

    /// What the window to send would be with an increment more.
    pub(crate) fn send_window_with(&self, initial: u32, increment: u32) -> i64
        ensures { result ≡ send_window_of initial self.now +ℤ pos increment }
    {
        i64::from(initial) + i64::from(self.credit) + i64::from(increment)
    }

    #[tactic(auto, using(crate::specs::WindowLaws::within_window))]
    /// Counts octets of DATA that are sent, no more than the window is under the greatest setting.
    pub(crate) fn spend(&mut self, octets: u32)
        requires { octets ≤ octets_of (send_window_of GREATEST_WINDOW self.old) }
        ensures { self.new ≡ record self.old { credit = self.old.credit -ℤ pos octets } }
    {
        self.credit = (i64::from(self.credit) - i64::from(octets)) as i32;
    }

    /// Counts octets that the peer has given, no more than fit under the least setting.
    pub(crate) fn gain(&mut self, increment: u32)
        requires { (send_window_of 0 self.old +ℤ pos increment) ≤ℤ pos GREATEST_WINDOW }
        ensures { self.new ≡ record self.old { credit = self.old.credit +ℤ pos increment } }
    {
        self.credit = (i64::from(self.credit) + i64::from(increment)) as i32;
    }
}

/// Whether a window would be greater than 31 bits can say.
pub(crate) fn is_too_great(window: i64) -> bool
    ensures { result ≡ is_too_great window }
{
    window > i64::from(GREATEST_WINDOW)
}

/// Where an open stream stands among the others; None exactly where it is not open.
pub(crate) fn index_of(streams: &[StreamWindows], stream: u32) -> Option<usize>
    ensures closed { IfNone result (IsAbsent stream_of stream streams.now) }
    ensures index { IfSome result (IsIndexOf stream_of stream streams.now) }
{
    streams.iter().position(|row| row.stream == stream)
}
