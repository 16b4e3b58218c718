//! Writing a frame.
ghost use Rattle.std.specs.Prelude.{◌≡◌, ◌≤◌, ◌+◌, ◌++◌, length, drop, IsTrue, ◌↔◌};
ghost use Rattle.h2_layouts.specs.Writable.{is_stream, fits, is_writable as writable_by_type};
ghost use Rattle.h2_layouts.specs.Written.{framed, header_octets, payload_of, octets_of, IsWritable};

use crate::frame::Frame;
use crate::frame_type::FrameType;
use crate::header::HEADER_OCTETS;
use crate::limit::{LONGEST_PAYLOAD, STREAMS};
use crate::priority_frame::PRIORITY_OCTETS;
use crate::{
    continuation_frame, data_frame, goaway_frame, headers_frame, ping_frame, priority_frame,
    rst_stream_frame, settings_frame, window_update_frame,
};
use esi_base::Octets;

/// Whether a frame is one that is written: of a type that the RFC has, with a payload of at most 16,384
/// octets, streams and increments below 2^31, a `flow` that is the number of its octets, and lawful for
/// whoever reads it.
pub fn is_writable(frame: &Frame) -> bool
    ensures { IsTrue result ↔ IsWritable frame.now }
{
    is_writable_by_type(frame)
}

/// The same, type by type.
fn is_writable_by_type(frame: &Frame) -> bool
    ensures { result ≡ writable_by_type frame.now }
{
    match frame {
        Frame::Content {
            stream,
            octets,
            flow,
            ..
        } => is_stream(*stream) && fits(octets) && *flow as usize == octets.len(),
        Frame::Head { stream, octets, .. } => is_stream(*stream) && fits(octets),
        Frame::Priority { stream } | Frame::Reset { stream, .. } => is_stream(*stream),
        Frame::Settings { pairs } => settings_frame::are_lawful(pairs.as_slice()),
        Frame::SettingsAck => true,
        // the type says so, but a proof does not see the length of an array in a frame
        Frame::Ping { octets, .. } => octets.as_slice().len() == 8,
        Frame::GoAway { last, .. } => *last < STREAMS,
        Frame::Update { stream, increment } => {
            *stream < STREAMS && *increment < STREAMS && !(*stream == 0 && *increment == 0)
        }
        Frame::Continued { stream, octets, .. } => *stream < STREAMS && fits(octets),
        Frame::Unknown { .. } => false,
    }
}

/// Whether it is a stream, and not the connection.
fn is_stream(stream: u32) -> bool
    ensures { result ≡ is_stream stream }
{
    stream != 0 && stream < STREAMS
}

/// Whether a payload may have these octets.
fn fits(octets: &Octets) -> bool
    ensures { result ≡ fits octets.now }
{
    octets.len() <= LONGEST_PAYLOAD as usize
}

/// How many octets a frame is written as.
pub fn frame_len(frame: &Frame) -> usize
    requires { IsWritable frame.now }
    ensures { result ≡ length (octets_of frame.now) }
{
    HEADER_OCTETS + payload_len(frame)
}

/// How many of them are its payload.
fn payload_len(frame: &Frame) -> usize
    requires { length (payload_of frame.now) ≤ LONGEST_PAYLOAD }
    ensures { result ≡ length (payload_of frame.now) }
{
    match frame {
        Frame::Content { octets, .. }
        | Frame::Head { octets, .. }
        | Frame::Continued { octets, .. } => octets.len(),
        Frame::Priority { .. } => PRIORITY_OCTETS,
        Frame::Reset { .. } | Frame::Update { .. } => 4,
        Frame::Settings { pairs } => settings_frame::payload_len(pairs.as_slice()),
        Frame::SettingsAck | Frame::Unknown { .. } => 0,
        Frame::Ping { octets, .. } => octets.as_slice().len(),
        Frame::GoAway { .. } => 8,
    }
}

/// Writes a header into the first octets, for a payload of so many.
pub(crate) fn write_header(kind: FrameType, flags: u8, stream: u32, len: usize, out: &mut [u8])
    requires small { len ≤ LONGEST_PAYLOAD }
    requires room { 9 ≤ length out.old }
    ensures { out.new ≡ header_octets (record { length = len; kind = kind; flags = flags; stream = stream }) ++ drop 9 out.old }
{
    let [_, a, b, c] = (len as u32).to_be_bytes();
    let [s, t, u, v] = stream.to_be_bytes();
    out[..HEADER_OCTETS].copy_from_slice(&[a, b, c, kind.number(), flags, s, t, u, v]);
}

/// Writes a header, and the payload after it, into as many octets.
pub(crate) fn write_payload(kind: FrameType, flags: u8, stream: u32, payload: &[u8], out: &mut [u8])
    requires small { length payload.now ≤ LONGEST_PAYLOAD }
    requires room { length out.old ≡ 9 + length payload.now }
    ensures { out.new ≡ framed kind flags stream payload.now }
{
    write_header(kind, flags, stream, payload.len(), out);
    out[HEADER_OCTETS..].copy_from_slice(payload);
}

/// Writes a frame into as many octets as it has, without padding and priority.
pub fn write_frame(frame: &Frame, out: &mut [u8])
    requires writable { IsWritable frame.now }
    requires room { length out.old ≡ length (octets_of frame.now) }
    ensures { out.new ≡ octets_of frame.now }
{
    match frame {
        Frame::Content {
            stream,
            end,
            octets,
            ..
        } => data_frame::write(*stream, *end, octets.as_slice(), out),
        Frame::Head {
            stream,
            end,
            last,
            octets,
        } => headers_frame::write(*stream, *end, *last, octets.as_slice(), out),
        Frame::Priority { stream } => priority_frame::write(*stream, out),
        Frame::Reset { stream, code } => rst_stream_frame::write(*stream, *code, out),
        Frame::Settings { pairs } => settings_frame::write(pairs.as_slice(), out),
        Frame::SettingsAck => settings_frame::write_ack(out),
        Frame::Ping { ack, octets } => ping_frame::write(*ack, octets, out),
        Frame::GoAway { last, code } => goaway_frame::write(*last, *code, out),
        Frame::Update { stream, increment } => window_update_frame::write(*stream, *increment, out),
        Frame::Continued {
            stream,
            last,
            octets,
        } => continuation_frame::write(*stream, *last, octets.as_slice(), out),
        Frame::Unknown { .. } => unreachable!(),
    }
}
