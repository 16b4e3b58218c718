//! PRIORITY (RFC 9113, section 6.3).
ghost use Rattle.h2_layouts.specs.PayloadReading.{priority_of};
ghost use Rattle.esi_base.specs.Answers.{Reads};
ghost use Rattle.std.specs.Prelude.{◌≡◌, length};
ghost use Rattle.h2_layouts.specs.declared.frame.Frame.TheVariants.{Priority as priority};
ghost use Rattle.h2_layouts.specs.Written.{octets_of};

use crate::frame::Frame;
use crate::frame_type::FrameType;
use crate::header::FrameHeader;
use crate::placing::stream_of;
use crate::reading::PayloadStop;
use crate::rule::FrameRule;
use crate::writing::write_payload;

/// How many octets a payload has: the stream that this one depends on, and a weight.
pub(crate) const PRIORITY_OCTETS: usize = 5;

const _: () = prove!(PRIORITY_OCTETS == 5);

/// The frame that a payload is.
#[tactic(auto, unfolding(crate::specs::PayloadReading::priority_of))]
pub(crate) fn read(header: FrameHeader, payload: &[u8]) -> Result<Frame, PayloadStop>
    ensures { Reads (priority_of header payload.now) result }
{
    let stream = stream_of(header).map_err(PayloadStop::Refused)?;
    if payload.len() == PRIORITY_OCTETS {
        Ok(Frame::Priority { stream })
    } else {
        Err(PayloadStop::Refused(FrameRule::PriorityLength))
    }
}

/// Writes a frame that depends on no stream.
pub(crate) fn write(stream: u32, out: &mut [u8])
    requires { length out.old ≡ 14 }
    ensures { out.new ≡ octets_of (priority stream) }
{
    write_payload(FrameType::Priority, 0, stream, &[0; PRIORITY_OCTETS], out);
}
