//! RST_STREAM (RFC 9113, section 6.4).
ghost use Rattle.std.specs.Prelude.{◌≡◌, length};
ghost use Rattle.h2_layouts.specs.PayloadReading.{rst_stream_of, code_at as code_there};
ghost use Rattle.esi_base.specs.Answers.{Reads};
ghost use Rattle.h2_layouts.specs.declared.frame.Frame.TheVariants.{Reset as reset};
ghost use Rattle.h2_layouts.specs.Written.{octets_of};

use crate::frame::Frame;
use crate::frame_type::FrameType;
use crate::header::FrameHeader;
use crate::placing::stream_of;
use crate::reading::PayloadStop;
use crate::rule::FrameRule;
use crate::writing::write_payload;

/// The frame that a payload is.
#[tactic(auto, unfolding(crate::specs::PayloadReading::rst_stream_of))]
pub(crate) fn read(header: FrameHeader, payload: &[u8]) -> Result<Frame, PayloadStop>
    ensures { Reads (rst_stream_of header payload.now) result }
{
    let stream = stream_of(header).map_err(PayloadStop::Refused)?;
    let code = code_at(payload).map_err(PayloadStop::Refused)?;
    Ok(Frame::Reset { stream, code })
}

/// The error code that a payload is.
fn code_at(payload: &[u8]) -> Result<u32, FrameRule>
    ensures { result ≡ code_there payload.now }
{
    let [a, b, c, d] = payload else {
        return Err(FrameRule::RstStreamLength);
    };
    Ok(u32::from_be_bytes([*a, *b, *c, *d]))
}

/// Writes a frame.
pub(crate) fn write(stream: u32, code: u32, out: &mut [u8])
    requires { length out.old ≡ 13 }
    ensures { out.new ≡ octets_of (reset stream code) }
{
    write_payload(FrameType::RstStream, 0, stream, &code.to_be_bytes(), out);
}
