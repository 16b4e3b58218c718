//! Frames that are put in answer to others, and the limit of the output.
ghost use Rattle.std.specs.Prelude.{◌≡◌, ◌+◌, ◌≤◌, nat_le, true, length, None};
ghost use Rattle.h2_history.specs.declared.limits.TheConstants.{GOAWAY_OCTETS};
ghost use Rattle.h2_history.specs.Puts.{broke, goaway, offered, offer_all};
ghost use Rattle.h2_history.specs.Puts.Put.{Plain};
ghost use Rattle.h2_history.specs.Verdicts.{owed, update_due};
ghost use Rattle.h2_layouts.specs.declared.frame.Frame.TheVariants.{Reset as reset_frame, Update as update_frame, SettingsAck as settings_ack, Ping as ping_frame};
ghost use Rattle.h2_layouts.specs.declared.limit.TheConstants.{LONGEST_PAYLOAD};
ghost use Rattle.h2_output.specs.declared.limits.TheConstants.{MOST_UNSENT};

use crate::conn::Conn;
use h2_history::Verdict;
use h2_history::limits::GOAWAY_OCTETS;
use h2_layouts::FrameType;
use h2_layouts::code::ENHANCE_YOUR_CALM;
use h2_layouts::flag::ACK;
use h2_layouts::header::HEADER_OCTETS;
use h2_output::MOST_UNSENT;

impl Conn {
    /// Whether a frame with so many octets of payload leaves room for the last GOAWAY.
    pub(crate) fn fits(&self, payload: usize) -> bool
        requires { payload ≤ LONGEST_PAYLOAD }
        ensures { result ≡ nat_le (length self.now.output + (9 + payload) + GOAWAY_OCTETS) MOST_UNSENT }
    {
        self.output.len() + (HEADER_OCTETS + payload) + GOAWAY_OCTETS <= MOST_UNSENT
    }

    /// Ends the connection with an error: GOAWAY is put, and no stream is open any more.
    pub(crate) fn break_with(&mut self, code: u32)
        requires { self.old.broken ≡ None }
        ensures { self.new ≡ broke code self.old }
    {
        let [a, b, c, d] = self.last_stream().to_be_bytes();
        let [e, f, g, h] = code.to_be_bytes();
        self.output
            .push_frame(FrameType::GoAway, 0, 0, &[a, b, c, d, e, f, g, h]);
        self.broken = Some(code);
        self.streams.close_all();
    }

    /// Resets a stream.
    pub(crate) fn offer_reset(&mut self, stream: u32, code: u32)
        ensures { self.new ≡ offered (Plain (reset_frame stream code)) self.old }
    {
        if self.broken.is_some() {
            return;
        }
        if !self.fits(4) {
            return self.break_with(ENHANCE_YOUR_CALM);
        }
        let [a, b, c, d] = code.to_be_bytes();
        self.output
            .push_frame(FrameType::RstStream, 0, stream, &[a, b, c, d]);
        self.streams.close(stream);
        self.ledger.close_stream(stream);
    }

    /// Gives octets of DATA back to the peer: on a stream, or on the connection at 0.
    pub(crate) fn offer_update(&mut self, stream: u32, increment: u32)
        ensures { self.new ≡ offered (Plain (update_frame stream increment)) self.old }
    {
        if self.broken.is_some() {
            return;
        }
        if !self.fits(4) {
            return self.break_with(ENHANCE_YOUR_CALM);
        }
        let [a, b, c, d] = increment.to_be_bytes();
        self.output
            .push_frame(FrameType::WindowUpdate, 0, stream, &[a, b, c, d]);
        if stream == 0 {
            let _increment = self.ledger.resolve(increment);
        }
    }

    /// Answers SETTINGS.
    pub(crate) fn offer_settings_ack(&mut self)
        ensures { self.new ≡ offered (Plain settings_ack) self.old }
    {
        if self.broken.is_some() {
            return;
        }
        if !self.fits(0) {
            return self.break_with(ENHANCE_YOUR_CALM);
        }
        self.output.push_frame(FrameType::Settings, ACK, 0, &[]);
    }

    /// Answers PING, with its octets.
    pub(crate) fn offer_ping_ack(&mut self, octets: &[u8; 8])
        ensures { self.new ≡ offered (Plain (ping_frame true octets.now)) self.old }
    {
        if self.broken.is_some() {
            return;
        }
        if !self.fits(octets.len()) {
            return self.break_with(ENHANCE_YOUR_CALM);
        }
        self.output.push_frame(FrameType::Ping, ACK, 0, octets);
    }

    /// Ends the connection with an error, where it has not ended.
    pub(crate) fn offer_goaway(&mut self, code: u32)
        ensures { self.new ≡ offered (goaway code self.old) self.old }
    {
        if self.broken.is_none() {
            self.break_with(code);
        }
    }

    /// Gives back octets of DATA from which nothing comes.
    pub(crate) fn return_octets(&mut self, flow: u32)
        ensures { self.new ≡ offer_all (update_due flow) self.old }
    {
        if flow != 0 {
            self.offer_update(0, flow);
        }
    }

    /// Puts what a verdict on a frame asks for that took so many octets of the windows.
    pub(crate) fn owe(&mut self, verdict: Verdict, flow: u32)
        ensures { self.new ≡ offer_all (owed verdict flow self.old) self.old }
    {
        match verdict {
            Verdict::ConnectionError { code } => self.offer_goaway(code),
            Verdict::StreamError { stream, code } => {
                self.offer_reset(stream, code);
                self.return_octets(flow);
            }
            Verdict::Ignored => self.return_octets(flow),
            Verdict::Accepted => {}
        }
    }
}
