//! WINDOW_UPDATE (RFC 9113, section 6.9).
ghost use Rattle.std.specs.Prelude.{◌≡◌, length};
ghost use Rattle.h2_layouts.specs.PayloadReading.{window_update_of, increment_at as increment_there};
ghost use Rattle.esi_base.specs.Answers.{Reads};
ghost use Rattle.h2_layouts.specs.declared.frame.Frame.TheVariants.{Update as update};
ghost use Rattle.h2_layouts.specs.Written.{octets_of};

use crate::frame::Frame;
use crate::frame_type::FrameType;
use crate::header::FrameHeader;
use crate::limit::STREAMS;
use crate::reading::PayloadStop;
use crate::rule::FrameRule;
use crate::writing::write_payload;

/// The frame that a payload is.
#[tactic(auto, unfolding(crate::specs::PayloadReading::window_update_of))]
pub(crate) fn read(header: FrameHeader, payload: &[u8]) -> Result<Frame, PayloadStop>
    ensures { Reads (window_update_of header payload.now) result }
{
    let increment = increment_at(payload).map_err(PayloadStop::Refused)?;
    if header.stream == 0 && increment == 0 {
        return Err(PayloadStop::Refused(FrameRule::Increment));
    }
    Ok(Frame::Update {
        stream: header.stream,
        increment,
    })
}

/// The increment that a payload is. The bit before it is reserved, and ignored.
fn increment_at(payload: &[u8]) -> Result<u32, FrameRule>
    ensures { result ≡ increment_there payload.now }
{
    let [a, b, c, d] = payload else {
        return Err(FrameRule::WindowUpdateLength);
    };
    Ok(u32::from_be_bytes([*a, *b, *c, *d]) % STREAMS)
}

/// Writes a frame.
pub(crate) fn write(stream: u32, increment: u32, out: &mut [u8])
    requires { length out.old ≡ 13 }
    ensures { out.new ≡ octets_of (update stream increment) }
{
    write_payload(
        FrameType::WindowUpdate,
        0,
        stream,
        &increment.to_be_bytes(),
        out,
    );
}
