//! Laws of the octets of connections, and of lists of calls of a reader.
ghost use Rattle.std.specs.Prelude.{◌≡◌, ◌≢◌, ℕ, List, ◌++◌};
ghost use Rattle.h2_layouts.specs.Contexts.{new_context};
ghost use Rattle.h2_layouts.specs.declared.context.FrameContext.{FrameContext};
ghost use Rattle.h2_layouts.specs.declared.frame.Frame.{Frame};
ghost use Rattle.h2_layouts.specs.declared.role.Role.{Role};
ghost use Rattle.h2_frames.specs.Calls.{Call, IsRun, octets_fed, frames_given, StaysFaulty};
ghost use Rattle.h2_frames.specs.Reading.{Reading, new_reading, fed_with};
ghost use Rattle.h2_frames.specs.Streams.{End, Ends, AreFrames, IsStream, HasStream};
ghost use Rattle.h2_frames.specs.Streams.End.{Unfinished};
ghost use Rattle.h2_frames.specs.StreamLaws.{AreSame};
ghost use Rattle.h2_frames.specs.WrittenFrames.{AreWritable, octets_at, context_after_all};

/// Octets have exactly one reading as frames: its frames, and how it goes on after them.
#[tactic(auto, using(crate::specs::StreamLaws::each_has_stream, crate::specs::StreamLaws::same_stream))]
pub fn one_stream_law()
    ensures some { (role : Role) (octets : List ℕ) → HasStream role octets }
    ensures once { (role : Role) (octets : List ℕ) (frames others : List Frame) (rest left : Reading)
        (end last : End) → IsStream role octets frames rest end → IsStream role octets others left last
        → AreSame frames others rest left end last }
{}

/// Over any list of calls, the frames that were given are those with which the octets begin that were
/// unread before and those fed since, and what is unread after is the rest. Where Pending or a fault is
/// due then, these are all the frames of the joined octets.
#[tactic(auto, using(crate::specs::CallLaws::frames_of_calls, crate::specs::CallLaws::stream_of_run))]
pub fn reader_law()
    ensures frames { (old new : Reading) (calls : List Call) → IsRun old calls new
        → AreFrames (fed_with (octets_fed calls) old) (frames_given calls) new }
    ensures stream { (role : Role) (new : Reading) (calls : List Call) (end : End)
        → IsRun (new_reading role) calls new → Ends new end
        → IsStream role (octets_fed calls) (frames_given calls) new end }
{}

/// The frames do not depend on the pieces in which the octets were fed, nor on when the reader was asked
/// for a frame: after any two lists of calls of a new reader that fed the same octets, joined, and after
/// which Pending or a fault is due, the same frames were given, and the same is due.
pub fn any_cutting_law()
    ensures { (role : Role) (calls others : List Call) (new found : Reading) (end last : End)
        → IsRun (new_reading role) calls new → Ends new end
        → IsRun (new_reading role) others found → Ends found last
        → octets_fed calls ≡ octets_fed others
        → (frames_given calls ≡ frames_given others) × (end ≡ last) }
{}

/// After a fault no frame is given, whatever is fed, and each answer is the same fault.
#[tactic(auto, using(crate::specs::CallLaws::stays_faulty))]
pub fn fault_law()
    ensures { (old new : Reading) (calls : List Call) (end : End)
        → Ends old end → end ≢ Unfinished → IsRun old calls new → StaysFaulty calls new end }
{}

/// Frames that were written one after another, each where it may stand, are read as those frames,
/// whatever follows, and in whatever pieces they come.
#[tactic(auto, using(crate::specs::WrittenLaws::written_are_frames, crate::specs::WrittenLaws::written_any_cutting))]
pub fn written_law()
    ensures frames { (context : FrameContext) (frames : List Frame) (more : List ℕ)
        → AreWritable context frames
        → AreFrames (record { context = context; unread = octets_at context frames ++ more }) frames
        (record { context = context_after_all context frames; unread = more }) }
    ensures cut { (role : Role) (frames : List Frame) (calls : List Call) (new : Reading) (end : End)
        → AreWritable (new_context role) frames
        → IsRun (new_reading role) calls new → Ends new end
        → octets_fed calls ≡ octets_at (new_context role) frames
        → (frames_given calls ≡ frames) × (end ≡ Unfinished) }
{}
