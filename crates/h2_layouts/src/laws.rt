//! The laws of frames and their octets.
ghost use Rattle.std.specs.Prelude.{◌≡◌, ◌⊎◌, ℕ, List};
ghost use Rattle.h2_layouts.specs.declared.frame.Frame.{Frame};
ghost use Rattle.h2_layouts.specs.declared.header.FrameHeader.{FrameHeader};
ghost use Rattle.h2_layouts.specs.declared.role.Role.{Role};
ghost use Rattle.h2_layouts.specs.Layouts.{IsFrame};
ghost use Rattle.h2_layouts.specs.PayloadAnswers.{HasFrame, HasRule};
ghost use Rattle.h2_layouts.specs.Written.{octets_of, IsWritable};

/// Octets are one frame at most; a header and a payload are a frame or break a rule; and what a frame
/// is written as is that frame, whoever reads it.
#[tactic(auto, using(crate::specs::WrittenLaws::one_frame, crate::specs::PayloadAnswers::frame_or_rule, crate::specs::WrittenLaws::frame_written))]
pub fn layout_law()
    ensures once { (role : Role) (octets : List ℕ) (frame other : Frame)
        → IsFrame role octets frame → IsFrame role octets other → frame ≡ other }
    ensures frame_or_rule { (role : Role) (header : FrameHeader) (payload : List ℕ)
        → HasFrame role header payload ⊎ HasRule role header payload }
    ensures written { (frame : Frame) → IsWritable frame
        → (role : Role) → IsFrame role (octets_of frame) frame }
{}
