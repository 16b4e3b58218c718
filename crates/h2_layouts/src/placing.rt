//! On which stream a frame is, and the octets that are not padding.
ghost use Rattle.std.specs.Prelude.{◌≡◌};
ghost use Rattle.h2_layouts.specs.PayloadReading.{stream_of, on_connection, before_padding as octets_before};
ghost use Rattle.std.specs.Result.{result_map_both};

use crate::header::FrameHeader;
use crate::rule::FrameRule;

/// The stream of a frame that has to be on a stream.
pub(crate) fn stream_of(header: FrameHeader) -> Result<u32, FrameRule>
    ensures { result ≡ stream_of header }
{
    if header.stream == 0 {
        Err(FrameRule::OnStream)
    } else {
        Ok(header.stream)
    }
}

/// Judges a frame that has to be on the connection.
pub(crate) fn on_connection(header: FrameHeader) -> Result<(), FrameRule>
    ensures { result ≡ on_connection header }
{
    if header.stream == 0 {
        Ok(())
    } else {
        Err(FrameRule::OnConnection)
    }
}

/// The octets before so much padding; the rule where there are not as many.
pub(crate) fn before_padding(rule: FrameRule, pad: u8, octets: &[u8]) -> Result<&[u8], FrameRule>
    ensures { octets_before rule pad octets.now ≡ result_map_both (λ octets. octets.now) (λ rule. rule) result }
{
    let pad = usize::from(pad);
    if octets.len() < pad {
        return Err(rule);
    }
    Ok(&octets[..octets.len() - pad])
}
