//! HEADERS (RFC 9113, section 6.2).
ghost use Rattle.std.specs.Prelude.{◌≡◌, ◌≤◌, ◌+◌, length};
ghost use Rattle.h2_layouts.specs.PayloadReading.{headers_of, headers_octets as octets_of_headers, padded_headers as octets_of_padded, after_priority as octets_after};
ghost use Rattle.std.specs.Result.{result_map_both};
ghost use Rattle.esi_base.specs.Answers.{Reads};
ghost use Rattle.h2_layouts.specs.declared.frame.Frame.TheVariants.{Head as head};
ghost use Rattle.h2_layouts.specs.declared.limit.TheConstants.{LONGEST_PAYLOAD};
ghost use Rattle.h2_layouts.specs.Written.{octets_of};

use crate::flag::{END_HEADERS, END_STREAM, PADDED, PRIORITY};
use crate::frame::Frame;
use crate::frame_type::FrameType;
use crate::header::FrameHeader;
use crate::placing::{before_padding, stream_of};
use crate::priority_frame::PRIORITY_OCTETS;
use crate::reading::PayloadStop;
use crate::rule::FrameRule;
use crate::writing::write_payload;
use esi_base::List;
use std::alloc::Global;

/// The frame that a payload is.
#[tactic(auto, unfolding(crate::specs::PayloadReading::headers_of))]
pub(crate) fn read(alloc: Global, header: FrameHeader, payload: &[u8]) -> Result<Frame, PayloadStop>
    ensures { Reads (headers_of header payload.now) result }
{
    let stream = stream_of(header).map_err(PayloadStop::Refused)?;
    let octets = headers_octets(header, payload).map_err(PayloadStop::Refused)?;
    Ok(Frame::Head {
        stream,
        end: header.has(END_STREAM),
        last: header.has(END_HEADERS),
        octets: List::from_slice(alloc, octets)?,
    })
}

/// A prefix of a header block, without padding and priority.
fn headers_octets(header: FrameHeader, payload: &[u8]) -> Result<&[u8], FrameRule>
    ensures { octets_of_headers header.flags payload.now ≡ result_map_both (λ octets. octets.now) (λ rule. rule) result }
{
    if header.has(PADDED) {
        padded_headers(header, payload)
    } else {
        after_priority(header, payload)
    }
}

/// The same with padding.
#[tactic(auto, unfolding(crate::specs::PayloadReading::padded_headers))]
fn padded_headers(header: FrameHeader, payload: &[u8]) -> Result<&[u8], FrameRule>
    ensures { octets_of_padded header.flags payload.now ≡ result_map_both (λ octets. octets.now) (λ rule. rule) result }
{
    let [pad, octets @ ..] = payload else {
        return Err(FrameRule::HeadersLength);
    };
    let octets = after_priority(header, octets)?;
    before_padding(FrameRule::HeadersPadding, *pad, octets)
}

/// The octets after those of the priority.
fn after_priority(header: FrameHeader, octets: &[u8]) -> Result<&[u8], FrameRule>
    ensures { octets_after header.flags octets.now ≡ result_map_both (λ octets. octets.now) (λ rule. rule) result }
{
    if !header.has(PRIORITY) {
        return Ok(octets);
    }
    if octets.len() < PRIORITY_OCTETS {
        return Err(FrameRule::HeadersLength);
    }
    Ok(&octets[PRIORITY_OCTETS..])
}

/// Writes a frame without padding and priority.
pub(crate) fn write(stream: u32, end: bool, last: bool, octets: &[u8], out: &mut [u8])
    requires small { length octets.now ≤ LONGEST_PAYLOAD }
    requires room { length out.old ≡ 9 + length octets.now }
    ensures { out.new ≡ octets_of (head stream end last octets.now) }
{
    let ended = if end { END_STREAM } else { 0 };
    let whole = if last { END_HEADERS } else { 0 };
    write_payload(FrameType::Headers, ended + whole, stream, octets, out);
}
