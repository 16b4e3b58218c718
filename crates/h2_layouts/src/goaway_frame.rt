//! GOAWAY (RFC 9113, section 6.8).
ghost use Rattle.std.specs.Prelude.{◌≡◌, length};
ghost use Rattle.h2_layouts.specs.PayloadReading.{goaway_of, goaway_at as goaway_there};
ghost use Rattle.esi_base.specs.Answers.{Reads};
ghost use Rattle.h2_layouts.specs.declared.frame.Frame.TheVariants.{GoAway as goaway};
ghost use Rattle.h2_layouts.specs.Written.{octets_of};

use crate::frame::Frame;
use crate::frame_type::FrameType;
use crate::header::FrameHeader;
use crate::limit::STREAMS;
use crate::placing::on_connection;
use crate::reading::PayloadStop;
use crate::rule::FrameRule;
use crate::writing::write_payload;

/// The frame that a payload is.
#[tactic(auto, unfolding(crate::specs::PayloadReading::goaway_of))]
pub(crate) fn read(header: FrameHeader, payload: &[u8]) -> Result<Frame, PayloadStop>
    ensures { Reads (goaway_of header payload.now) result }
{
    on_connection(header).map_err(PayloadStop::Refused)?;
    goaway_at(payload).map_err(PayloadStop::Refused)
}

/// The last stream and the error code, with which a payload begins. The bit before the stream is
/// reserved, and ignored.
fn goaway_at(payload: &[u8]) -> Result<Frame, FrameRule>
    ensures { result ≡ goaway_there payload.now }
{
    let [a, b, c, d, e, f, g, h, ..] = payload else {
        return Err(FrameRule::GoAwayLength);
    };
    Ok(Frame::GoAway {
        last: u32::from_be_bytes([*a, *b, *c, *d]) % STREAMS,
        code: u32::from_be_bytes([*e, *f, *g, *h]),
    })
}

/// Writes a frame without debug data.
pub(crate) fn write(last: u32, code: u32, out: &mut [u8])
    requires { length out.old ≡ 17 }
    ensures { out.new ≡ octets_of (goaway last code) }
{
    let [a, b, c, d] = last.to_be_bytes();
    let [e, f, g, h] = code.to_be_bytes();
    write_payload(FrameType::GoAway, 0, 0, &[a, b, c, d, e, f, g, h], out);
}
