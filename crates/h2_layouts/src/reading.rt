//! Reading a frame whose octets stand whole.
ghost use Rattle.std.specs.Prelude.{◌≡◌, length, Some, Ok, Err, IfOk, IsErrOf};
ghost use Rattle.h2_layouts.specs.declared.frame.Frame.{Frame as AnyFrame};
ghost use Rattle.h2_layouts.specs.declared.rule.FrameRule.{FrameRule as AnyRule};
ghost use Rattle.h2_layouts.specs.Layouts.{IsPayload};
ghost use Rattle.h2_layouts.specs.Rules.{broken_payload};
ghost use Rattle.h2_layouts.specs.PayloadReading.{frame_of};
ghost use Rattle.esi_base.specs.Answers.{Reads};
ghost use Rattle.esi_base.specs.declared.stop.Stop.TheVariants.{Refused as stop_refused};

use crate::frame::Frame;
use crate::frame_type::FrameType;
use crate::header::FrameHeader;
use crate::role::Role;
use crate::rule::FrameRule;
use crate::{
    continuation_frame, data_frame, goaway_frame, headers_frame, ping_frame, priority_frame,
    rst_stream_frame, settings_frame, window_update_frame,
};
use esi_base::Stop;
use std::alloc::Global;

/// Why a payload is not read: the first rule that the frame breaks, or out of memory.
pub type PayloadStop = Stop<FrameRule>;

/// The frame that a header and its payload are, for this end of a connection. The header's own rules
/// (`FrameContext::broken_rule`) are not checked here.
#[tactic(auto, using(crate::specs::PayloadAnswers::frame_found, crate::specs::PayloadAnswers::frame_only, crate::specs::PayloadAnswers::rule_only))]
pub fn read_payload(
    alloc: Global,
    role: Role,
    header: FrameHeader,
    payload: &[u8],
) -> Result<Frame, PayloadStop>
    requires { length payload.now ≡ header.length }

    // It gives exactly the frame that the header and the payload are.
    ensures frame { IfOk result (λ frame. IsPayload role header payload.now frame) }
    ensures frame_only { (frame : AnyFrame) → IsPayload role header payload.now frame
        → Reads (Ok frame) result }

    // It stops exactly with the first rule that is broken.
    ensures rule { (rule : AnyRule) → IsErrOf result (stop_refused rule)
        → broken_payload role header payload.now ≡ Some rule }
    ensures rule_only { (rule : AnyRule) → broken_payload role header payload.now ≡ Some rule
        → Reads (Err rule) result }

    // The answer is that of reading the payload by its type.
    ensures exact { Reads (frame_of role header payload.now) result }
{
    read_by_type(alloc, role, header, payload)
}

/// The same, by the frame's type.
fn read_by_type(
    alloc: Global,
    role: Role,
    header: FrameHeader,
    payload: &[u8],
) -> Result<Frame, PayloadStop>
    requires { length payload.now ≡ header.length }
    ensures { Reads (frame_of role header payload.now) result }
{
    match header.kind {
        FrameType::Data => data_frame::read(alloc, header, payload),
        FrameType::Headers => headers_frame::read(alloc, header, payload),
        FrameType::Priority => priority_frame::read(header, payload),
        FrameType::RstStream => rst_stream_frame::read(header, payload),
        FrameType::Settings => settings_frame::read(alloc, role, header, payload),
        FrameType::PushPromise => Err(PayloadStop::Refused(FrameRule::PushPromise)),
        FrameType::Ping => ping_frame::read(header, payload),
        FrameType::GoAway => goaway_frame::read(header, payload),
        FrameType::WindowUpdate => window_update_frame::read(header, payload),
        FrameType::Continuation => continuation_frame::read(alloc, header, payload),
        FrameType::Unknown(kind) => Ok(Frame::Unknown { kind }),
    }
}
