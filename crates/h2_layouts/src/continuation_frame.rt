//! CONTINUATION (RFC 9113, section 6.10).
ghost use Rattle.h2_layouts.specs.PayloadReading.{continuation_of};
ghost use Rattle.esi_base.specs.Answers.{Reads};
ghost use Rattle.std.specs.Prelude.{◌≡◌, ◌≤◌, ◌+◌, length};
ghost use Rattle.h2_layouts.specs.declared.frame.Frame.TheVariants.{Continued as continued};
ghost use Rattle.h2_layouts.specs.declared.limit.TheConstants.{LONGEST_PAYLOAD};
ghost use Rattle.h2_layouts.specs.Written.{octets_of};

use crate::flag::END_HEADERS;
use crate::frame::Frame;
use crate::frame_type::FrameType;
use crate::header::FrameHeader;
use crate::reading::PayloadStop;
use crate::writing::write_payload;
use esi_base::List;
use std::alloc::Global;

/// The frame that a payload is.
pub(crate) fn read(alloc: Global, header: FrameHeader, payload: &[u8]) -> Result<Frame, PayloadStop>
    ensures { Reads (continuation_of header payload.now) result }
{
    Ok(Frame::Continued {
        stream: header.stream,
        last: header.has(END_HEADERS),
        octets: List::from_slice(alloc, payload)?,
    })
}

/// Writes a frame.
pub(crate) fn write(stream: u32, last: bool, octets: &[u8], out: &mut [u8])
    requires small { length octets.now ≤ LONGEST_PAYLOAD }
    requires room { length out.old ≡ 9 + length octets.now }
    ensures { out.new ≡ octets_of (continued stream last octets.now) }
{
    let flags = if last { END_HEADERS } else { 0 };
    write_payload(FrameType::Continuation, flags, stream, octets, out);
}
