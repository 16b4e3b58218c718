//! PING (RFC 9113, section 6.7).
ghost use Rattle.std.specs.Prelude.{◌≡◌, ◌+◌, length};
ghost use Rattle.h2_layouts.specs.PayloadReading.{ping_of, eight_octets as eight_of};
ghost use Rattle.esi_base.specs.Answers.{Reads};
ghost use Rattle.h2_layouts.specs.declared.frame.Frame.TheVariants.{Ping as ping};
ghost use Rattle.h2_layouts.specs.Written.{octets_of};

use crate::flag::ACK;
use crate::frame::Frame;
use crate::frame_type::FrameType;
use crate::header::FrameHeader;
use crate::placing::on_connection;
use crate::reading::PayloadStop;
use crate::rule::FrameRule;
use crate::writing::write_payload;

/// The frame that a payload is.
#[tactic(auto, unfolding(crate::specs::PayloadReading::ping_of))]
pub(crate) fn read(header: FrameHeader, payload: &[u8]) -> Result<Frame, PayloadStop>
    ensures { Reads (ping_of header payload.now) result }
{
    on_connection(header).map_err(PayloadStop::Refused)?;
    let octets = eight_octets(payload).map_err(PayloadStop::Refused)?;
    Ok(Frame::Ping {
        ack: header.has(ACK),
        octets,
    })
}

/// The eight octets that a payload is.
fn eight_octets(payload: &[u8]) -> Result<[u8; 8], FrameRule>
    ensures { result ≡ eight_of payload.now }
{
    let [a, b, c, d, e, f, g, h] = payload else {
        return Err(FrameRule::PingLength);
    };
    Ok([*a, *b, *c, *d, *e, *f, *g, *h])
}

/// Writes a frame.
pub(crate) fn write(ack: bool, octets: &[u8; 8], out: &mut [u8])
    requires { length out.old ≡ 9 + length octets.now }
    ensures { out.new ≡ octets_of (ping ack octets.now) }
{
    let flags = if ack { ACK } else { 0 };
    write_payload(FrameType::Ping, flags, 0, octets, out);
}
