//! DATA (RFC 9113, section 6.1).
ghost use Rattle.std.specs.Prelude.{◌≡◌, ◌≤◌, ◌+◌, length};
ghost use Rattle.h2_layouts.specs.PayloadReading.{data_of, data_octets as octets_of_data};
ghost use Rattle.std.specs.Result.{result_map_both};
ghost use Rattle.esi_base.specs.Answers.{Reads};
ghost use Rattle.h2_layouts.specs.declared.frame.Frame.TheVariants.{Content as content};
ghost use Rattle.h2_layouts.specs.declared.limit.TheConstants.{LONGEST_PAYLOAD};
ghost use Rattle.h2_layouts.specs.Written.{octets_of};

use crate::flag::{END_STREAM, PADDED};
use crate::frame::Frame;
use crate::frame_type::FrameType;
use crate::header::FrameHeader;
use crate::placing::{before_padding, stream_of};
use crate::reading::PayloadStop;
use crate::rule::FrameRule;
use crate::writing::write_payload;
use esi_base::List;
use std::alloc::Global;

/// The frame that a payload is.
#[tactic(auto, unfolding(crate::specs::PayloadReading::data_of))]
pub(crate) fn read(alloc: Global, header: FrameHeader, payload: &[u8]) -> Result<Frame, PayloadStop>
    requires { length payload.now ≡ header.length }
    ensures { Reads (data_of header payload.now) result }
{
    let stream = stream_of(header).map_err(PayloadStop::Refused)?;
    let octets = data_octets(header, payload).map_err(PayloadStop::Refused)?;
    Ok(Frame::Content {
        stream,
        end: header.has(END_STREAM),
        octets: List::from_slice(alloc, octets)?,
        flow: header.length,
    })
}

/// The octets without padding.
fn data_octets(header: FrameHeader, payload: &[u8]) -> Result<&[u8], FrameRule>
    ensures { octets_of_data header.flags payload.now ≡ result_map_both (λ octets. octets.now) (λ rule. rule) result }
{
    if !header.has(PADDED) {
        return Ok(payload);
    }
    let [pad, octets @ ..] = payload else {
        return Err(FrameRule::DataPadLength);
    };
    before_padding(FrameRule::DataPadding, *pad, octets)
}

/// Writes a frame without padding.
pub(crate) fn write(stream: u32, end: bool, octets: &[u8], out: &mut [u8])
    requires small { length octets.now ≤ LONGEST_PAYLOAD }
    requires room { length out.old ≡ 9 + length octets.now }
    ensures { out.new ≡ octets_of (content stream end octets.now (length octets.now)) }
{
    let flags = if end { END_STREAM } else { 0 };
    write_payload(FrameType::Data, flags, stream, octets, out);
}
